//! Public calls that no other test makes, each once, with ample memory: a run of given moves, a built-in
//! program under a type of its own, and a receiver that is started whatever a verifier would say, with a file
//! that is there before the first move and one that comes, and runs of it.
use crate::playing::DAY;
use crate::reports::refusing::{file, is_told, service, shown, told};
use mh_base::Value;
use mh_engine::{Engine, Receiver, Unequipped, run};
use mh_model::{Builtin, Input, Key, Move, Now};
use mh_resident::{BuiltinProgram, Resident};
use mh_told::text::Text;
use std::alloc::Global;

/// Puts more steps than there are to make.
fn put_steps(moves: &mut Vec<Move>) -> Option<()> {
    for _ in 0..20 {
        moves.push(Move::Step).ok()?;
    }
    Some(())
}

/// Puts such steps, a key, and such steps again.
fn put_moves(moves: &mut Vec<Move>) -> Option<()> {
    put_steps(moves)?;
    moves.push(Move::Post(Input::Key(Key::Red))).ok()?;
    put_steps(moves)
}

/// What is played. Its owner below is generic, since a function that owns an engine by name is dear to
/// prove.
trait Played {
    /// What is told behind these moves.
    fn told_behind(&mut self, alloc: Global, moves: &[Move]) -> Option<Text>;
}

impl Played for Engine {
    fn told_behind(&mut self, alloc: Global, moves: &[Move]) -> Option<Text> {
        run(self, moves).ok().and(told(alloc, self))
    }
}

fn of_played<P: Played + Drop>(alloc: Global, played: Option<P>, moves: &[Move]) -> Option<Text> {
    let mut played = played;
    played.as_mut()?.told_behind(alloc, moves)
}

fn engine(alloc: Global, files: &str) -> Option<Engine> {
    Engine::start_lenient(alloc, service(alloc, files)?, DAY).ok()
}

/// What is told behind a run of the red box that a key moves.
fn of_run(alloc: Global) -> Option<Text> {
    let mut moves = Vec::new(alloc);
    let put = put_moves(&mut moves);
    put.and(of_played(alloc, engine(alloc, "application @scene"), moves.as_slice()))
}

#[test]
fn runs_given_moves(rt: HostRuntime) {
    let wanted = "row 01: 2-3 000000/ff0000 \"\"\nrow 02: 2-3 000000/ff0000 \"\"\ntotal 13\n";
    assert!(rt; is_told(of_run(rt.alloc()), wanted));
}

fn day_in(answer: &[Value]) -> Option<i32> {
    match answer {
        [Value::Int(day)] => Some(*day),
        _ => None,
    }
}

/// Which day of the week a day is, by a built-in program; 0 is Sunday.
fn day_of_week(alloc: Global, day: i32) -> Option<i32> {
    let program = BuiltinProgram::new(alloc, Builtin::DayOfWeek).ok()?;
    let mut values = Vec::new(alloc);
    let pushed = values.push(Value::Int(day)).ok();
    let now = Now {
        mjd: DAY,
        moment: 0,
    };
    let answer = program.call(now, values.as_slice()).ok();
    day_in(pushed.and(answer)?.as_slice())
}

/// 24 November 2026, a Tuesday.
#[test]
fn calls_a_builtin_program(rt: HostRuntime) {
    assert!(rt; day_of_week(rt.alloc(), 61_368) == Some(2));
}

fn programs(alloc: Global) -> Option<Vec<BuiltinProgram>> {
    let program = BuiltinProgram::new(alloc, Builtin::DayOfWeek).ok()?;
    let mut programs = Vec::new(alloc);
    let pushed = programs.push(program).ok();
    pushed.and(Some(programs))
}

/// What is told where the file `x` is there before the first move, and another `x` comes later.
fn told_of_files<P: Resident>(
    alloc: Global,
    receiver: &mut Receiver<P>,
    steps: &[Move],
) -> Option<Text> {
    receiver.preset(file(alloc, b"x", b"Hi")?).ok()?;
    receiver.run(steps).ok()?;
    receiver
        .post(Input::Arrive(file(alloc, b"x", b"Ho")?))
        .ok()?;
    receiver.run(steps).ok()?;
    let taken = receiver.engine().taken();
    if !receiver.engine().faults().is_empty() {
        return None;
    }
    shown(alloc, receiver.picture(), taken)
}

fn of_receiver<P: Resident>(
    alloc: Global,
    started: &mut Result<Receiver<P>, Unequipped<P>>,
) -> Option<Text> {
    match started {
        Ok(receiver) => {
            let mut steps = Vec::new(alloc);
            let put = put_steps(&mut steps);
            put.and(told_of_files(alloc, receiver, steps.as_slice()))
        }
        Err(_) => None,
    }
}

/// What is told of a text that waits for the file `x`.
fn of_waiting(alloc: Global) -> Option<Text> {
    let (service, programs) = service(alloc, "waiting").zip(programs(alloc))?;
    let mut started = Receiver::start_lenient(alloc, service, programs, DAY);
    let told = of_receiver(alloc, &mut started);
    drop(started);
    told
}

#[test]
fn gives_files_to_a_receiver(rt: HostRuntime) {
    let wanted = "row 00: 0-1 ffffff/000000 \"Hi\"\ntotal 8\n";
    assert!(rt; is_told(of_waiting(rt.alloc()), wanted));
}
