// Plans typed out as schedules.
pub(crate) mod error;
pub(crate) mod judge;
pub(crate) mod line;
pub(crate) mod read;
pub(crate) mod set;
pub(crate) mod uses;
