//! Commands, done one after another.

ghost use Rattle.std.specs.Prelude.{◌≡◌, IfErr, IsOk, MatchResult, OnOk, Err};
ghost use Rattle.network_model.specs.Kinds.{refusal_kind};
ghost use Rattle.interpreter.specs.Commands.{AreDone, IsDone, IsRefused, StopsAtCommand};

use crate::commands::{do_step, look_up, show_trace, try_step};
use crate::host::Host;
use crate::kept::Staffed;
use crate::live::Live;
use crate::putting::put_links;
use crate::threaded::{Threaded, drain, inject, settle};
use command_line::Format;
use control::{Progress, TurnGate};
use fabric::FabricName;
use faults::FaultKind;
use lines::{
    Line, Printer, print_report, print_state, show_held, show_next, show_queue, show_table,
};
use network_model::Refusal;
use plans::{Fault, Where};
use script::{Command, Directory, Key, Place};
use std::alloc::Global;
use std::io::Write;

/// What is told of a script or a shell, and how.
#[derive(Clone, Copy)]
pub struct PrintStyle {
    /// Whether more is told of a machine's state and of what cannot be done, and in a shell of what each step takes or
    /// sends.
    pub explain: bool,
    /// How what is printed is written.
    pub format: Format,
    /// Whether it is told how far a script is.
    pub progress: bool,
    /// Whether commands are typed: then lines of JSON are the elements of lists.
    pub is_shell: bool,
}

/// How commands are done, and told of.
#[derive(Drop)]
pub struct Interpreter<'a, G> {
    pub alloc: Global,
    /// What threads call that settle.
    pub gate: &'a G,
    /// The routers' names.
    pub directory: &'a Directory,
    pub style: PrintStyle,
}

impl<'a, G> Interpreter<'a, G> {
    /// What prints lines by these names in this format.
    pub fn printer(&self) -> Printer<'a> {
        Printer {
            directory: self.directory,
            format: self.style.format,
            listed: self.style.is_shell && matches!(self.style.format, Format::Json),
        }
    }

    // Whether it is told what each step takes or sends.
    fn tells_moves(&self) -> bool {
        self.style.is_shell && self.style.explain
    }
}

/// Does the commands in order, up to the first that is refused. Their steps make a run of lawful steps. After each,
/// and while one goes on, it is told on `err` how far the run is, where that is asked for.
pub fn do_commands<B, H, N, G, W, E>(
    interpreter: &Interpreter<'_, G>,
    net: &mut N,
    commands: &[Command],
    out: &mut W,
    err: &mut E,
) -> Result<(), Fault>
where
    B: FabricName + Send + Sync + 'static,
    H: Host,
    N: Threaded<Staffed<B, H>>,
    G: TurnGate + Sync,
    W: Write,
    E: Write,
    ensures all { OnOk result (AreDone N.meaning commands.now net.old net.new) }
    ensures stop { IfErr result (StopsAtCommand N.meaning commands.now net.old net.new) }
{
    let mut progress = ScriptProgress {
        asked: interpreter.style.progress,
        done: 0,
        all: commands.len(),
        err,
    };
    progress.steps(0);
    for (position, &command) in commands.iter().enumerate() {
        match do_command(interpreter, net, command, out, &mut progress) {
            Ok(()) => {
                progress.done = position.saturating_add(1);
                progress.steps(net.steps() as usize);
            }
            Err(kind) => {
                let key = Key::Script;
                return Err(Fault {
                    kind,
                    place: Some(Where::Scenario(Place { key, position })),
                });
            }
        }
    }
    Ok(())
}

// How far a script is: so many of all its commands were done. It tells nothing where nobody asked.
#[derive(Drop)]
struct ScriptProgress<'a, E: Write> {
    asked: bool,
    done: usize,
    all: usize,
    err: &'a mut E,
}

impl<'a, E: Write> Progress for ScriptProgress<'a, E> {
    fn steps(&mut self, steps: usize) {
        show_commands_done(self.asked, self.done, self.all, steps, self.err);
    }
}

/// Does one command, and tells `progress` how far it is. What it prints may be lost.
pub fn do_command<B, H, N, G, W, P>(
    interpreter: &Interpreter<'_, G>,
    net: &mut N,
    command: Command,
    out: &mut W,
    progress: &mut P,
) -> Result<(), FaultKind>
where
    B: FabricName + Send + Sync + 'static,
    H: Host,
    N: Threaded<Staffed<B, H>>,
    G: TurnGate + Sync,
    W: Write,
    P: Progress,
    ensures ok { OnOk result (IsDone N.meaning command net.old net.new) }
    ensures err { IfErr result (IsRefused N.meaning command net.old net.new) }
{
    let printer = interpreter.printer();
    let alloc = interpreter.alloc;
    match command {
        Command::Step(step) => {
            let moves = interpreter.tells_moves();
            do_step(net, &printer, moves, step, out)
        }
        Command::Try(step) => {
            try_step(net, &printer, step, out);
            Ok(())
        }
        Command::Settle => into_kind(settle(net, interpreter.gate, None, progress)),
        Command::SettleDrawn { seed } => {
            into_kind(settle(net, interpreter.gate, Some(seed), progress))
        }
        Command::RouterUp { router } => put_links(net, true, router),
        Command::RouterDown { router } => put_links(net, false, router),
        Command::State { router, prefix } => {
            let explain = interpreter.style.explain;
            let done = print_state(net.world(), &printer, router, prefix, explain, out);
            into_kind(done)
        }
        Command::Table { router } => into_kind(show_table(net.world(), &printer, router, out)),
        Command::Next { router } => {
            let links = net.network().links();
            into_kind(show_next(net.world(), links, &printer, router, out))
        }
        Command::Queue { router, port } => {
            let done = show_queue(alloc, net.world(), &printer, router, port, out);
            into_kind(done)
        }
        Command::Held { router } => {
            let done = show_held(alloc, net.world(), &printer, router, out);
            into_kind(done)
        }
        Command::Lookup { router, addr } => look_up(net, &printer, router, addr, out),
        Command::Trace { router, addr } => show_trace(net, &printer, router, addr, false, out),
        Command::TraceThrough { router, addr } => {
            show_trace(net, &printer, router, addr, true, out)
        }
        Command::Inject { router, addr } => inject(net, router, addr),
        Command::Drain => drain(net, &printer, out),
        Command::Count => {
            let counts = net.count();
            let _ = printer.print(&Line::Counted(counts), out);
            Ok(())
        }
        Command::Save => net.save(),
        Command::Restore => net.restore(),
        Command::Report => {
            let _ = print_report(net.world(), &printer, out);
            Ok(())
        }
    }
}

fn into_kind(done: Result<(), Refusal>) -> Result<(), FaultKind>
    ensures { MatchResult done (λ _. IsOk result) (λ e. result ≡ Err (refusal_kind e)) }
{
    match done {
        Ok(()) => Ok(()),
        Err(refusal) => Err(FaultKind::from(refusal)),
    }
}

// ---- how far a run or a replay is, told on a line that moves, where that is asked for; a write that fails is lost

// Tells how many commands of a script were done, and how many steps.
fn show_commands_done<E: Write>(asked: bool, done: usize, all: usize, steps: usize, err: &mut E) {
    if asked {
        let _ = write!(err, "\rdualnet: {done} of {all} commands, {steps} steps");
        let _ = err.flush();
    }
}

/// Tells how many steps of a journal were done.
pub fn show_steps_done<E: Write>(asked: bool, done: usize, all: usize, err: &mut E) {
    if asked {
        let _ = write!(err, "\rdualnet: {done} of {all} steps");
        let _ = err.flush();
    }
}

/// Ends the line.
pub fn end_line<E: Write>(asked: bool, err: &mut E) {
    if asked {
        let _ = writeln!(err, "");
    }
}
