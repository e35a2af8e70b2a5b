use crate::sheets::Sheets;

pub mod calls;
pub mod fault;
mod reader;

// A rack that is filled from a packed file, all at once.
#[derive(Clone, Copy)]
pub struct FileRack {
    sheets: Sheets,
}
