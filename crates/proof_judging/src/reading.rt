// The steps of a proof that a host has opened.
ghost use Rattle.std.specs.Prelude.{◌≡◌, ◌≢◌, None};
ghost use Rattle.host_io.specs.declared.role.Role.TheVariants.{ProofIn};
ghost use Rattle.host_io.specs.Files.{Kept};
ghost use Rattle.lrat_text.specs.declared.reader.ReaderStatus.TheVariants.{Reading};
ghost use Rattle.lrat_text.specs.LineReader.{given};
ghost use Rattle.proof_judging.specs.Rules.{ReadsStep};

use host_io::{Host, HostSource, Role, beside_kept};
use lrat_text::{LineForm, LineReader, StepError};

/// The next step of the proof that was opened in the role `ProofIn`, read into its place.
pub fn read_step<F: LineForm, H: Host>(
    reader: &mut LineReader<F>,
    host: &mut H,
    step: &mut F::Step,
) -> Result<Option<u64>, StepError>
    requires opened { (H.channel host.old ProofIn).name ≢ None }
    requires reading { reader.old.status ≡ Reading }
    ensures reads { ReadsStep F.form H.tells (H.channel host.old ProofIn) (H.channel host.new ProofIn) reader.old reader.new
        (given step.new result) }
    ensures kept { Kept ProofIn None (H.channel host.old) (H.channel host.new) (H.files host.old) (H.files host.new) }
{
    beside_kept::<H>();
    let mut source = HostSource::new(host, Role::ProofIn);
    reader.next_into(&mut source, step)
}
