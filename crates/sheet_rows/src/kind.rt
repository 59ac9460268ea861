// The kinds of rows: those of records, but one for every constant, and one each for the uses of a declared name, of a
// private variable, of a parameter and of a procedure. `short_kind` has them as the words of a table have them.
pub const SKIP: usize = sheet_records::kind::SKIP as usize;

pub const CONSTANT: usize = sheet_records::kind::TRUTH as usize;

pub const NAME: usize = sheet_records::kind::USE as usize;

pub const FETCH: usize = sheet_records::kind::FETCH as usize;

pub const OPERATE: usize = sheet_records::kind::OPERATE as usize;

pub const ASSIGN: usize = sheet_records::kind::ASSIGN as usize;

pub const SEQUENCE: usize = sheet_records::kind::SEQUENCE as usize;

pub const IF: usize = sheet_records::kind::IF as usize;

pub const WHILE: usize = sheet_records::kind::WHILE as usize;

pub const NEW: usize = sheet_records::kind::NEW as usize;

pub const PROCEDURE: usize = sheet_records::kind::PROCEDURE as usize;

pub const PRIVATE: usize = 128;

pub const PARAMETER: usize = 129;

pub const ROUTINE: usize = 130;
