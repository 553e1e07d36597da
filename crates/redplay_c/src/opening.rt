//! How a session begins: the service of files, the engine for it, and the content files that are there at first.
ghost use Rattle.std.specs.Prelude.{◌≡◌, Ok, IfOk, IfErr, IsErrAnd, IsOk, OnOk, [], false, true};
ghost use Rattle.mh_codec.specs.Tags.{profile};
ghost use Rattle.mh_engine.specs.Play.{unbounded};
ghost use Rattle.mh_layers.specs.Known.{top};
ghost use Rattle.mh_model.specs.Planes.{blank};
ghost use Rattle.mh_model.specs.State.{begun};
ghost use Rattle.mh_verify.specs.Free.{IsVerified};
ghost use Rattle.mh_script.specs.Contents.{contents};
ghost use Rattle.redplay_c.specs.Starts.{Bars, Begins, Halts, IsEngineOf, IsStarted, IsUnstarted, Judges, Plays, Stops, Unsets, presets, refusal_of};

use crate::choice::Choice;
use crate::crossing::Source;
use crate::player::{Kind, Player};
use crate::preset::preset_all;
use crate::reading::{owned_files, read_chosen};
use crate::session::Session;
use crate::start_refusal::StartRefusal;
use mh_base::GroupName;
use mh_codec::TagTable;
use mh_engine::{Engine, RefusedWhy, StartError};
use mh_model::{File, Picture};
use mh_script::read_contents;
use mh_service::Service;
use mh_verify::{Accepted, RefusalKind, verify};
use std::alloc::Global;

/// The last modified Julian day on which a play may begin.
pub(crate) const LAST_DAY: u32 = 1_000_000;

impl Session {
    /// A session at the start of the service that the files make. The content files that the service names are there. Unless
    /// a lenient play is wanted, the verifier accepts the service.
    #[tactic(auto, using(crate::proofs::StartLemmas::started_so, crate::proofs::StartLemmas::unstarted_so, crate::proofs::StartLemmas::unnamed_so))]
    pub fn start(
        alloc: Global,
        sources: &[Source],
        choice: &Choice,
    ) -> Result<Session, StartRefusal>
        ensures started { IfOk result (λ session. IsStarted sources.now choice.now session) }
        ensures refused { IfErr result (λ why. IsUnstarted sources.now choice.now why) }
    {
        if choice.day > LAST_DAY {
            return Err(StartRefusal::NoDay);
        }
        match owned_files(alloc, sources) {
            Ok(files) => Session::of_files(alloc, files.as_slice(), choice),
            Err(why) => Err(StartRefusal::of_name(why)),
        }
    }

    fn of_files(
        alloc: Global,
        files: &[(GroupName, Vec<u8>)],
        choice: &Choice,
    ) -> Result<Session, StartRefusal>
        ensures started { IfOk result (λ session. Begins choice.now files.now session) }
        ensures refused { IfErr result (λ why. Bars choice.now files.now why) }
    {
        match TagTable::profile(alloc) {
            Ok(tags) => Session::of_tagged(alloc, &tags, files, choice),
            Err(_) => Err(StartRefusal::NoMemory),
        }
    }

    #[tactic(auto, using(crate::proofs::StartLemmas::begins_so, crate::proofs::StartLemmas::bars_so, crate::proofs::StartLemmas::unread_so))]
    fn of_tagged(
        alloc: Global,
        tags: &TagTable,
        files: &[(GroupName, Vec<u8>)],
        choice: &Choice,
    ) -> Result<Session, StartRefusal>
        requires { tags.now ≡ profile }
        ensures started { IfOk result (λ session. Begins choice.now files.now session) }
        ensures refused { IfErr result (λ why. Bars choice.now files.now why) }
    {
        match read_chosen(alloc, tags, files, choice.start, choice.late) {
            Ok(service) => Session::of_read(alloc, tags, service, files, choice),
            Err(why) => Err(StartRefusal::of_unread(&why)),
        }
    }

    fn of_read(
        alloc: Global,
        tags: &TagTable,
        service: Service,
        files: &[(GroupName, Vec<u8>)],
        choice: &Choice,
    ) -> Result<Session, StartRefusal>
        requires { service.programs ≡ [] }
        ensures started { IfOk result (λ session. Plays choice.now service (contents tags.now service files.now) session) }
        ensures refused { IfErr result (λ why. Stops choice.now service (contents tags.now service files.now) why) }
    {
        match read_contents(alloc, tags, &service, files) {
            Ok(contents) => Session::of_service(alloc, service, contents.as_slice(), choice),
            Err(_) => Err(StartRefusal::NoMemory),
        }
    }

    fn of_service(
        alloc: Global,
        service: Service,
        contents: &[File],
        choice: &Choice,
    ) -> Result<Session, StartRefusal>
        requires { service.programs ≡ [] }
        ensures started { IfOk result (λ session. Plays choice.now service contents.now session) }
        ensures refused { IfErr result (λ why. Stops choice.now service contents.now why) }
    {
        match Picture::black(alloc) {
            Ok(seen) => Session::of_black(alloc, service, seen, contents, choice),
            Err(_) => Err(StartRefusal::NoMemory),
        }
    }

    #[tactic(auto, using(crate::proofs::StartLemmas::plays_so, crate::proofs::StartLemmas::stops_so, crate::proofs::StartLemmas::halts_so))]
    fn of_black(
        alloc: Global,
        service: Service,
        seen: Picture,
        contents: &[File],
        choice: &Choice,
    ) -> Result<Session, StartRefusal>
        requires plain { service.programs ≡ [] }
        requires black { seen ≡ blank }
        ensures started { IfOk result (λ session. Plays choice.now service contents.now session) }
        ensures refused { IfErr result (λ why. Stops choice.now service contents.now why) }
    {
        match engine_of(alloc, service, choice) {
            Ok(engine) => {
                Session::of_player(alloc, Player::of(Kind::Whole(engine)), seen, contents)
            }
            Err(why) => Err(why),
        }
    }

    /// A session of what plays and has begun, with these files there. It is handed what was seen, since a call that may be
    /// refused memory is dear beside an engine.
    #[tactic(auto, using(crate::proofs::StartLemmas::set_so, crate::proofs::StartLemmas::kept_so, crate::proofs::StartLemmas::unset_so))]
    pub(crate) fn of_player(
        alloc: Global,
        player: Player,
        seen: Picture,
        contents: &[File],
    ) -> Result<Session, StartRefusal>
        ensures set { IfOk result (λ session. presets contents.now player.play.state ≡ Ok session.engine.state) }
        ensures same { IfOk result (λ session. session ≡ record { engine = record player.play { state = session.engine.state }; seal = player.seal; seen = seen }) }
        ensures refused { IfErr result (λ why. Unsets (presets contents.now player.play.state) why) }
    {
        let mut session = Session {
            alloc,
            player,
            seen,
        };
        let set = preset_all(&mut session.player, contents);
        once_set(set, session)
    }
}

/// What is handed over, where the files are there. What is generic in it does not speak of how an engine is dropped.
fn once_set<P: Drop>(set: Result<(), RefusedWhy>, whole: P) -> Result<P, StartRefusal>
    ensures same { IfOk result (λ given. given ≡ whole) }
    ensures good { OnOk result (IsOk set) }
    ensures refused { IfErr result (λ why. IsErrAnd set (λ unset. why ≡ refusal_of unset)) }
{
    match set {
        Ok(()) => Ok(whole),
        Err(why) => Err(StartRefusal::of_unset(why)),
    }
}

/// An engine for the service, if the verifier accepts it or is not asked.
#[tactic(auto, using(crate::proofs::StartLemmas::lenient_so, crate::proofs::StartLemmas::strict_so, crate::proofs::StartLemmas::lenient_halts, crate::proofs::StartLemmas::strict_halts))]
fn engine_of(alloc: Global, service: Service, choice: &Choice) -> Result<Engine, StartRefusal>
    requires { service.programs ≡ [] }
    ensures begun { IfOk result (λ engine. IsEngineOf choice.now service engine) }
    ensures refused { IfErr result (λ why. Halts choice.now service why) }
{
    if choice.lenient {
        lenient_engine(alloc, service, choice.day)
    } else {
        verified_engine(alloc, service, choice.day)
    }
}

fn lenient_engine(alloc: Global, service: Service, day: u32) -> Result<Engine, StartRefusal>
    requires { service.programs ≡ [] }
    ensures begun { IfOk result (λ engine. engine ≡ record { state = begun service day; accepted = false; bounds = unbounded; budget = top }) }
    ensures refused { IfErr result (λ why. why ≡ StartRefusal.NoMemory) }
{
    match Engine::start_lenient(alloc, service, day) {
        Ok(engine) => Ok(engine),
        Err(_) => Err(StartRefusal::NoMemory),
    }
}

#[tactic(auto, using(crate::proofs::StartLemmas::verified_so, crate::proofs::StartLemmas::bounded_so, crate::proofs::StartLemmas::judged_memory))]
fn verified_engine(alloc: Global, service: Service, day: u32) -> Result<Engine, StartRefusal>
    requires { service.programs ≡ [] }
    ensures begun { IfOk result (λ engine. engine ≡ record { state = begun service day; accepted = true; bounds = engine.bounds; budget = engine.bounds.start }) }
    ensures verified { IfOk result (λ engine. IsVerified (record { service = service; bounds = engine.bounds })) }
    ensures refused { IfErr result (λ why. Judges service why) }
{
    match accepted_of(alloc, service) {
        Ok(accepted) => accepted_engine(alloc, accepted, day),
        Err(why) => Err(why),
    }
}

/// What is known of the service, if the verifier accepts it.
#[tactic(auto, using(crate::proofs::StartLemmas::plain_service))]
fn accepted_of(alloc: Global, service: Service) -> Result<Accepted, StartRefusal>
    requires { service.programs ≡ [] }
    ensures same { IfOk result (λ accepted. accepted.service ≡ service) }
    ensures verified { IfOk result (λ accepted. IsVerified accepted) }
    ensures refused { IfErr result (λ why. Judges service why) }
{
    match verify(alloc, service, &[]) {
        Ok(accepted) => Ok(accepted),
        Err(refusal) => match refusal.kind {
            RefusalKind::NoMemory => Err(StartRefusal::NoMemory),
            _ => Err(StartRefusal::Unaccepted),
        },
    }
}

/// An engine for a service that was verified without programs, so that only memory can be refused.
fn accepted_engine(alloc: Global, accepted: Accepted, day: u32) -> Result<Engine, StartRefusal>
    requires { accepted.service.programs ≡ [] }
    ensures begun { IfOk result (λ engine. engine ≡ record { state = begun accepted.service day; accepted = true; bounds = accepted.bounds; budget = accepted.bounds.start }) }
    ensures refused { IfErr result (λ why. why ≡ StartRefusal.NoMemory) }
{
    match Engine::start(alloc, accepted, day) {
        Ok(engine) => Ok(engine),
        Err(refused) => {
            let why = refused.why;
            drop(refused);
            match why {
                StartError::NoMemory => Err(StartRefusal::NoMemory),
                StartError::ProgramsDiffer => unreachable!(),
            }
        }
    }
}
