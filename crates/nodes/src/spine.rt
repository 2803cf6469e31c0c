// A step down a spine: the object or callee, and whether the step has an optional mark.
#[derive(Clone, Copy)]
pub struct Link {
    pub part: u16,
    pub optional: bool,
}
