ghost use Rattle.std.specs.Prelude.{◌≡◌, ◌+◌, ◌<◌, ◌≤◌, ◌∷◌, length};
ghost use Rattle.racks.specs.Changing.{sheets_meaning, bare};
ghost use Rattle.racks.specs.Packing.{record_at};
ghost use Rattle.racks.specs.Reading.{ReadsRules, ReadsSheet};
ghost use Rattle.racks.specs.Filing.{Parses};

use crate::file::FileRack;
use crate::file::fault::FileFault;
use crate::rack::Rack;
use crate::sheets::Sheets;
use rules::record::Record;
use rules::table::{MOST_RULES, MOST_SHEETS};

const RULE_BYTES: usize = 6;

// The rack that the bytes pack, or why they pack none.
pub(crate) fn parse(bytes: &[u8]) -> Result<FileRack, FileFault>
    ensures { Parses bytes.now result }
{
    let [version, matters, announced, rest @ ..] = bytes else {
        return Err(FileFault::TooShort);
    };
    if *version != 1 {
        return Err(FileFault::Version);
    }
    let sheets = Sheets::with_matters(*matters).ok_or(FileFault::Matters)?;
    if usize::from(*announced) > MOST_SHEETS {
        return Err(FileFault::TooManySheets);
    }
    read_sheets(sheets, *announced, rest)
}

// All sheets that the head announced, and then nothing.
fn read_sheets(mut sheets: Sheets, announced: u8, bytes: &[u8]) -> Result<FileRack, FileFault>
    requires none { sheets_meaning sheets ≡ bare (sheets_meaning sheets).matters }
    requires low { announced ≤ 32 }
    ensures { Parses (1 ∷ ((sheets_meaning sheets).matters ∷ (announced ∷ bytes.now))) result }
{
    let mut rest = bytes;
    for _ in 0..announced {
        // Not refused: the head announced no sheet too many.
        sheets.begin().unwrap();
        rest = read_sheet(&mut sheets, rest)?;
    }
    if !rest.is_empty() {
        return Err(FileFault::LeftOver);
    }
    Ok(FileRack { sheets })
}

// Lays the rules that come next on the top sheet, and answers the bytes after them.
// The length is checked before the rules: a false one must not lead past the end.
fn read_sheet<'a>(sheets: &mut Sheets, bytes: &'a [u8]) -> Result<&'a [u8], FileFault>
    requires { 0 < (sheets_meaning sheets.old).sheets }
    ensures { ReadsSheet bytes.now (sheets_meaning sheets.old) result (sheets_meaning sheets.new) }
{
    let [high, low, rest @ ..] = bytes else {
        return Err(FileFault::CutOff);
    };
    let length = usize::from(u16::from_be_bytes([*high, *low]));
    if length % RULE_BYTES != 0 {
        return Err(FileFault::Ragged);
    }
    if usize::from(sheets.shape().rules) + length / RULE_BYTES > MOST_RULES {
        return Err(FileFault::TooManyRules);
    }
    let (rules, rest) = rest.split_at_checked(length).ok_or(FileFault::CutOff)?;
    lay_rules(sheets, rules.as_chunks().0)?;
    Ok(rest)
}

// Lays rules on the top sheet.
fn lay_rules(sheets: &mut Sheets, rules: &[[u8; RULE_BYTES]]) -> Result<(), FileFault>
    requires on { 0 < (sheets_meaning sheets.old).sheets }
    requires room { length (sheets_meaning sheets.old).rules + length rules.now ≤ 256 }
    ensures { ReadsRules rules.now (sheets_meaning sheets.old) result (sheets_meaning sheets.new) }
{
    for bytes in rules {
        sheets.lay(record_of(bytes)).ok_or(FileFault::BadRule)?;
    }
    Ok(())
}

// The record that six bytes pack. No `From`: neither type is this crate's.
fn record_of(bytes: &[u8; RULE_BYTES]) -> Record
    ensures { result ≡ record_at bytes.now 0 }
{
    let [head, sign, yes_high, yes_low, no_high, no_low] = *bytes;
    Record {
        head,
        sign,
        yes: u16::from_be_bytes([yes_high, yes_low]),
        no: u16::from_be_bytes([no_high, no_low]),
    }
}
