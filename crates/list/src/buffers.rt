// What the program keeps while it runs: the input, the cells of a picture, and what is printed of it. Nothing is on the heap.
use crate::page::Page;

const INPUT_ROOM: usize = picture::LONGEST;

#[derive(Drop)]
pub struct Buffers {
    // How many of these are held goes with the run (`Run.held`): clauses `fills` and `left` of `Stepped` name it beside the buffer. A
    // BufReader has its buffer on the heap.
    pub input: [u8; INPUT_ROOM],
    pub cells: [u16; scan::LONGEST_ROW],
    pub page: Page,
}

impl Buffers {
    pub fn new() -> Buffers {
        Buffers {
            input: [0; INPUT_ROOM],
            cells: [0; scan::LONGEST_ROW],
            page: Page::new(),
        }
    }
}
