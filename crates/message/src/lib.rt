// Messages, read from bytes.
#![tactic(auto)]

pub mod body;
pub mod kind;
pub mod laws;
pub mod read;
pub mod words;

// The sayer says that left speaks for right, from and until included. A term is read, or given as bytes.
#[derive(Clone, Copy, Debug, Drop, PartialEq, Eq)]
pub struct Statement<T> {
    pub serial: u32,
    pub from: u32,
    pub until: u32,
    pub sayer: T,
    pub left: T,
    pub right: T,
}

// The statement with this serial is struck.
#[derive(Clone, Copy, Debug, Drop, PartialEq, Eq)]
pub struct Strike {
    pub serial: u32,
}

// The sayer asks for the operation on the object.
#[derive(Clone, Copy, Debug, Drop, PartialEq, Eq)]
pub struct Request<T> {
    pub number: u32,
    pub object: u16,
    pub operation: u8,
    pub sayer: T,
}

#[derive(Clone, Copy, Debug, Drop, PartialEq, Eq)]
pub enum Message<T> {
    Statement(Statement<T>),
    Strike(Strike),
    Request(Request<T>),
}
