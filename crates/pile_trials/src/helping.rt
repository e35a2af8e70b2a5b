use laying::fault::RackFault;
use racks::file::FileRack;
use racks::file::fault::FileFault;
use rules::record::Record;
use rules::refusal::Refusal;

// The facts "matter 0" and "not matter 0".
pub const YES_0: Record = Record {
    head: 0,
    sign: 1,
    yes: 0,
    no: 0,
};

pub const NO_0: Record = Record {
    head: 0,
    sign: 0,
    yes: 0,
    no: 0,
};

// A record that is no rule where there are fewer than 3 matters.
pub const BAD: Record = Record {
    head: 2,
    sign: 1,
    yes: 0,
    no: 0,
};

// How a call went; a refusal by its number, as docs/REFUSALS.md lists them.
pub fn numbered(answer: Result<(), RackFault>) -> Result<(), u8> {
    answer.map_err(|fault| fault.number())
}

// The rack of a packed file.
pub fn filed(bytes: &[u8]) -> Result<FileRack, FileFault> {
    let mut rack = FileRack::new();
    rack.fill(bytes)?;
    Ok(rack)
}
