//! Posts, and steps of an engine until nothing is left to do.
ghost use Rattle.std.specs.Prelude.{◌≡◌, ◌++◌, None, OnOk};
ghost use Rattle.mh_model.specs.Step.{obstacle};
ghost use Rattle.mh_live.specs.Playing as spec;
ghost use Rattle.mh_live.specs.Posts.{recorded};

use crate::post::Post;
use crate::record;
use mh_engine::Engine;
use mh_model::Input;
use mh_script::RUN_LIMIT;
use mh_told::text::Text;
use std::alloc::{AllocError, Global};

/// Posts an input that nothing stands against, makes steps until nothing is left to do, and records both.
pub fn do_accepted(
    alloc: Global,
    engine: &mut Engine,
    script: &mut Text,
    input: Input,
    post: &Post,
) -> Result<(), AllocError>
    requires { obstacle input engine.old.state ≡ None }
    ensures played { OnOk result (engine.new ≡ spec.played input engine.old) }
    ensures recorded { OnOk result (script.new ≡ script.old ++ recorded post.now) }
{
    accept(engine, input)?;
    put_recorded(alloc, script, post)?;
    run_through(engine)
}

fn put_recorded(alloc: Global, script: &mut Text, post: &Post) -> Result<(), AllocError>
    ensures { OnOk result (script.new ≡ script.old ++ recorded post.now) }
{
    let lines = record::recorded(alloc, post)?;
    script.put(lines.as_slice())
}

/// Posts an input that nothing stands against.
fn accept(engine: &mut Engine, input: Input) -> Result<(), AllocError>
    requires { obstacle input engine.old.state ≡ None }
    ensures { OnOk result (engine.new ≡ spec.accepted input engine.old) }
{
    match engine.post(input) {
        Ok(()) => Ok(()),
        Err(_) => Err(AllocError),
    }
}

/// Makes as many steps as `run` does in a script.
pub fn run_through(engine: &mut Engine) -> Result<(), AllocError>
    ensures { OnOk result (engine.new ≡ spec.run_through engine.old) }
{
    engine.advance(RUN_LIMIT)
}
