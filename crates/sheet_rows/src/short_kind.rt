// The kinds of rows as the words of a table have them.
pub const CONSTANT: u16 = crate::kind::CONSTANT as u16;

pub const NAME: u16 = crate::kind::NAME as u16;

pub const FETCH: u16 = crate::kind::FETCH as u16;

pub const OPERATE: u16 = crate::kind::OPERATE as u16;

pub const ASSIGN: u16 = crate::kind::ASSIGN as u16;

pub const SEQUENCE: u16 = crate::kind::SEQUENCE as u16;

pub const IF: u16 = crate::kind::IF as u16;

pub const WHILE: u16 = crate::kind::WHILE as u16;

pub const NEW: u16 = crate::kind::NEW as u16;

pub const PROCEDURE: u16 = crate::kind::PROCEDURE as u16;

pub const PRIVATE: u16 = crate::kind::PRIVATE as u16;

pub const PARAMETER: u16 = crate::kind::PARAMETER as u16;

pub const ROUTINE: u16 = crate::kind::ROUTINE as u16;
