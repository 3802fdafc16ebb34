// A literal by the place of its variable.
/// A literal by the place of its variable in the order.
#[derive(Clone, Copy)]
pub struct Placed {
    pub level: u32,
    pub negative: bool,
}
