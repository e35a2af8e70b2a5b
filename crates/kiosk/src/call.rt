use rules::record::Record;

// One call of a kiosk, with its arguments. A fact's matter and sign are plain numbers, as a counter types them:
// nonsense is refused by number 13, and a narrower type would ask more of callers.
#[derive(Clone, Copy, PartialEq, Eq, Debug)]
pub enum Call {
    Begin,
    Lay(Record),
    Withdraw,
    Open,
    Fact(u8, u8),
    End,
    Outcomes,
}
