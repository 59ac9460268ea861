// The expansion of a sheet with procedures to shared rows, document 02 [1]: a part that comes down to a parameter is
// that parameter's row; the term of a procedure is expanded at each use, and before it each argument that it uses,
// once; every other record makes one row.
#![tactic(auto)]

pub mod expand;
