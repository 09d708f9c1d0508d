/// What a plan is opened from, beside its tables. The slip stands row by row.
///
/// Each list comes as its caller holds it, of any length, so that a refusal can name the one that is wrong.
#[derive(Clone, Copy)]
pub struct Lists<'a> {
    pub c: &'a [i64],
    pub l: &'a [i64],
    pub u: &'a [i64],
    pub lo: &'a [i64],
    pub hi: &'a [i64],
    pub slip: &'a [i64],
}
