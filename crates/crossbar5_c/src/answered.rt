/// What the caller is told of an answer: the length of its text, and its status.
#[repr(C)]
#[derive(Drop)]
pub struct Answered {
    pub length: usize,
    pub status: u32,
}
