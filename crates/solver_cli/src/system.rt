// The program over the system.
ghost use Rattle.std.specs.Prelude.{◌≡◌, ◌⊎◌, ℕ, List, All, true};
ghost use Rattle.std.specs.Process.{exit_status};
ghost use Rattle.host_io.specs.declared.role.Role.{Role};
ghost use Rattle.host_io.specs.Files.{Texts};
ghost use Rattle.host_io.specs.Real.{Hosted, IsWanted, channel_of, untold_files};
ghost use Rattle.solver_cli.specs.ExitCode.{exit_code};
ghost use Rattle.solver_cli.specs.Headline.{Promises};
ghost use Rattle.solver_cli.specs.Run.{AllFit};
ghost use Rattle.solver_cli.specs.Start.{IsNew, OnlyTold};
ghost use Rattle.solver_cli.specs.declared.status.Status.{Status};

use crate::program::run_with;
use host_io::{Host, RealHost};
use std::process::ExitCode;

/// All that `main` does: `run_system`, whose host is let go. It stands here since a program that names `run_with` has all definitions of its
/// contract read again.
pub fn start(rt: HostRuntime) -> ExitCode {
    run_system(rt).0
}

/// One call of `run_with` over the system's command line and files: the exit code, and the host as it is left.
pub fn run_system(rt: HostRuntime) -> (ExitCode, RealHost)
    // The run of some words, over any contents of the files that agree with the bytes that were taken of them; or the words couldn't be
    // had, which was told on standard error, and nothing else was done.
    ensures promises { (status : Status) × (first : Hosted) × IsNew first × (exit_status result.0 ≡ exit_code status)
        × (((words : List (List ℕ))
        × ((texts : Texts) (fits : AllFit (untold_files first) (channel_of first) (channel_of result.1) texts)
        → Promises (record {
          tells = true;
          words = words;
          before = channel_of first;
          after = channel_of result.1;
          files = untold_files first;
          files_after = untold_files result.1;
          texts = texts;
          fits = fits;
          status = status;
        })))
        ⊎ OnlyTold true (channel_of first) (channel_of result.1) (untold_files first) (untold_files result.1) status) }
    // The system was asked for nothing but what the program holds and what a role reaches that may, or failed to reach.
    ensures wanted { All (IsWanted result.1) result.1.made }
{
    let alloc = rt.alloc();
    let (mut host, words) = RealHost::of_system(rt);
    let code = run_with(alloc, words, &mut host);
    host.unnamed_law();
    (code, host)
}
