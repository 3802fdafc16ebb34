// The text that `make` writes, in the file that was created for it.
ghost use Rattle.std.specs.Prelude.{◌≡◌, ◌≢◌, ◌≤◌, None};
ghost use Rattle.host_io.specs.declared.role.Role.TheVariants.{Made};
ghost use Rattle.host_io.specs.Channel.{WritesAll};
ghost use Rattle.host_io.specs.Files.{Kept};
ghost use Rattle.workload.specs.Board.{board_formula, column_order, most_columns};
ghost use Rattle.solver_cli.specs.MadeText.{made_text};
ghost use Rattle.solver_cli.specs.Phases.{PutsText};

use command_line::BoardText;
use host_io::{Failed, Host, HostSink, Role, Sink, beside_kept};
use workload::{Board, write_cnf, write_columns, write_order, write_sets};

/// Writes this text of the board of so many squares a side in the role that was created for it, and flushes it.
pub fn put_part<H: Host>(
    host: &mut H,
    board: &Board,
    size: u32,
    part: BoardText,
) -> Result<(), Failed>
    requires created { (H.channel host.old Made).name ≢ None }
    requires least { 2 ≤ size }
    requires most { size ≤ most_columns }
    requires cnf { board.now.cnf ≡ board_formula size }
    requires order { board.now.order ≡ column_order size }
    ensures puts { PutsText H.tells (H.channel host.old Made) (H.channel host.new Made) (made_text part size) result }
    ensures kept { Kept Made (H.channel host.old Made).name (H.channel host.old) (H.channel host.new) (H.files host.old)
        (H.files host.new) }
{
    beside_kept::<H>();
    let mut sink = HostSink::new(host, Role::Made);
    print_part(&mut sink, board, size, part)
}

fn print_part<S: Sink>(
    sink: &mut S,
    board: &Board,
    size: u32,
    part: BoardText,
) -> Result<(), Failed>
    requires least { 2 ≤ size }
    requires most { size ≤ most_columns }
    requires cnf { board.now.cnf ≡ board_formula size }
    requires order { board.now.order ≡ column_order size }
    ensures puts { PutsText S.tells (S.channel sink.old) (S.channel sink.new) (made_text part size) result }
    ensures beside { S.beside sink.new ≡ S.beside sink.old }
{
    write_part(sink, board, size, part)?;
    sink.flush()
}

fn write_part<S: Sink>(
    sink: &mut S,
    board: &Board,
    size: u32,
    part: BoardText,
) -> Result<(), Failed>
    requires least { 2 ≤ size }
    requires most { size ≤ most_columns }
    requires cnf { board.now.cnf ≡ board_formula size }
    requires order { board.now.order ≡ column_order size }
    ensures writes { WritesAll S.tells (S.channel sink.old) (S.channel sink.new) (made_text part size) result }
    ensures beside { S.beside sink.new ≡ S.beside sink.old }
{
    match part {
        BoardText::Cnf => write_cnf(sink, &board.cnf),
        BoardText::Order => write_order(sink, &board.order),
        BoardText::Schedule => write_columns(sink, size),
        BoardText::Sets => write_sets(sink, size),
    }
}
