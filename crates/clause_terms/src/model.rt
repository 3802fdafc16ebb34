// Truth values of all variables.
ghost use Rattle.std.specs.Prelude.{◌≡◌, ◌<◌, ◌≤◌, ◌-◌, length, slice_set};

/// An assignment: the value of variable 1 first.
#[derive(Drop)]
pub struct Model {
    pub(crate) values: Vec<bool>,
}

impl std::marker::Model for Model {
    ghost use Rattle.std.specs.Prelude.{Bool, List};

    ghost Value = { List Bool };

    ghost view = { λ m. m.values.items };
}

impl Model {
    pub fn as_slice(&self) -> &[bool]
        ensures { result.now ≡ self.now }
    {
        self.values.as_slice()
    }

    /// Gives a variable this value.
    pub fn set(&mut self, variable: u32, value: bool)
        requires some { 0 < variable }
        requires within { variable ≤ length self.old }
        ensures { self.new ≡ slice_set self.old (variable - 1) value }
    {
        self.values[variable as usize - 1] = value;
    }
}
