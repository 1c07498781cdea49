// The lines of a bench script: read byte by byte, and what each asks for.
#![tactic(auto)]

mod lines;
mod requests;
mod words;

pub use lines::{BadLine, Line, Numbers, Reader};
pub use requests::{Call, Request, Task, asked_by, request_of};
pub use words::Word;
