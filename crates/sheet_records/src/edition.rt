// Which rule a sheet is read under. Document 02 [3]: from then on no binder may hide an enclosing one; the earlier rule,
// under which it may, is kept for old sheets.
#[derive(Clone, Copy)]
pub enum Edition {
    Earlier,
    Present,
}
