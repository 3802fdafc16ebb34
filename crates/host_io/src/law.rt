// What a caller concludes where the view of a role is done: beside the role all is as it was, so the host kept it.
ghost use Rattle.host_io.specs.Beside.{KeepsBeside};

use crate::host::Host;

/// A law for a caller's proof; the call does nothing.
#[inline(always)]
pub fn beside_kept<H: Host>()
    ensures { KeepsBeside H.channel H.files }
{}
