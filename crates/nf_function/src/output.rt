/// What a function answers for a packet: a code, and two numbers that the code gives a meaning.
#[derive(Clone, Copy, Debug, PartialEq, Eq)]
pub struct Output {
    pub code: u8,
    pub a: u32,
    pub b: u32,
}
