// The formats of proofs, by their names.
ghost use Rattle.std.specs.Prelude.{◌≡◌};
ghost use Rattle.command_line.specs.Command.{format_given, format_named, format_of_name, in_any_order};
ghost use Rattle.command_line.specs.Reading.{text_of};

/// A format of proofs, in text.
#[derive(Clone, Copy)]
pub enum ProofFormat {
    /// With hints (Cruz-Filipe, Heule, Hunt, Kaufmann, Schneider-Kamp 2017).
    Lrat,
    /// Without hints (Wetzler, Heule, Hunt 2014). A deletion names a clause by its list of literals.
    Drat,
    /// The same; a deletion names a clause by its set of literals, in any order.
    DratBySet,
}

const DEFAULT_FORMAT: ProofFormat = ProofFormat::Lrat;

/// The format that the option names; the default without it. None where no format has that name, and where one that has no deletions by
/// literals is to be read in any order.
pub fn format_given(any_order: bool, name: Option<&str>) -> Option<ProofFormat>
    ensures { result ≡ format_given any_order (text_of name.entry) }
{
    let format = format_of_name(name)?;
    if any_order {
        return in_any_order(format);
    }
    Some(format)
}

// The format where deletions name sets of literals.
fn in_any_order(format: ProofFormat) -> Option<ProofFormat>
    ensures { result ≡ in_any_order format }
{
    match format {
        ProofFormat::Lrat => None,
        ProofFormat::Drat => Some(ProofFormat::DratBySet),
        ProofFormat::DratBySet => Some(ProofFormat::DratBySet),
    }
}

fn format_of_name(name: Option<&str>) -> Option<ProofFormat>
    ensures { result ≡ format_of_name (text_of name.entry) }
{
    match name {
        Some(name) => format_named(name),
        None => Some(DEFAULT_FORMAT),
    }
}

pub(crate) fn format_named(name: &str) -> Option<ProofFormat>
    ensures { result ≡ format_named name.now }
{
    if name == "lrat" {
        Some(ProofFormat::Lrat)
    } else if name == "drat" {
        Some(ProofFormat::Drat)
    } else {
        None
    }
}
