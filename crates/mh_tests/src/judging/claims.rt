//! Refusals that show nothing: those of the verifier with something taken out or changed, and some that are written by hand,
//! beside others that do show what they say.
mod tables;

use crate::cases::all_hold;
use crate::judging::chains::{config, group, reference};
use crate::judging::claims::tables::{BROUGHT, CHANGED, WRITTEN};
use crate::machine::service::Asked;
use mh_base::{ObjRef, Seq, Value};
use mh_cases::{number, word};
use mh_flow::Link;
use mh_group::ActionName;
use mh_layers::{Arrow, By};
use mh_model::Config;
use mh_service::Service;
use mh_verify::{Place, Refusal, RefusalKind};
use std::alloc::Global;
use std::mem::replace;

/// Takes the member at this place out.
fn take_out<T: Drop>(alloc: Global, members: &mut Seq<T>, at: usize) {
    let mut left = replace(members, Seq::new(alloc)).into_vec();
    if at < left.len() {
        left.remove(at);
    }
    *members = Seq::from_vec(left);
}

/// Changes what an arrow says in one word: the data of its event, the scene, what it grants, the number of its action, the
/// action, or by what the next effect is put to work.
fn bend(alloc: Global, arrow: &mut Arrow, how: &str) {
    match how {
        "data" => {
            if let By::Event(event) = &mut arrow.by {
                event.data = Some(Value::Int(6));
            }
        }
        "scene" => arrow.cause.config.scene = None,
        "held" => arrow.held = Seq::new(alloc),
        "index" => arrow.index = arrow.index.saturating_add(1),
        "action" => arrow.action = ActionName::Run,
        "by" => arrow.by = By::Entered,
        _ => {}
    }
}

/// Changes the arrow at this place.
fn bend_at(alloc: Global, arrows: &mut Seq<Arrow>, at: usize, how: &str) {
    let mut bent = replace(arrows, Seq::new(alloc)).into_vec();
    if let Some(arrow) = bent.get_mut(at) {
        bend(alloc, arrow, how);
    }
    *arrows = Seq::from_vec(bent);
}

/// Changes the refusal as the question says, `changed HOW AT`: a link is taken out of its chain (`link`), an arrow out of its
/// cycle (`arrow`), or an arrow is changed.
pub fn change(alloc: Global, refusal: &mut Refusal, asked: &str) -> Option<()> {
    let at = number(asked, 2)? as usize;
    match word(asked, 1) {
        "link" => take_out(alloc, &mut refusal.chain, at),
        "arrow" => take_out(alloc, &mut refusal.cycle, at),
        how => bend_at(alloc, &mut refusal.cycle, at, how),
    }
    Some(())
}

/// The kind of the refusal, by its number.
fn kind(asked: &str) -> Option<RefusalKind> {
    match number(asked, 1)? {
        0 => Some(RefusalKind::NoMemory),
        1 => Some(RefusalKind::AbsentObject),
        2 => Some(RefusalKind::WrongClass),
        3 => Some(RefusalKind::WrongKind),
        4 => Some(RefusalKind::HeldAbsent),
        5 => Some(RefusalKind::HeldWrongClass),
        6 => Some(RefusalKind::Cycle),
        7 => Some(RefusalKind::TimerThroughVariable),
        9 => Some(RefusalKind::WrongCall),
        _ => None,
    }
}

fn place(alloc: Global, asked: &str) -> Option<Place> {
    Some(Place {
        object: number(asked, 3)?,
        index: number(asked, 4)? as usize,
        group: group(alloc, word(asked, 2))?,
    })
}

/// The link of these words: an object and the number of its action, and what was written.
fn link(alloc: Global, words: &str) -> Option<Link> {
    let index = number(words, 2)? as usize;
    let key = reference(alloc, word(words, 0), word(words, 1));
    let written = reference(alloc, word(words, 3), word(words, 4));
    let (key, written) = key.zip(written)?;
    Some(Link {
        key,
        index,
        written,
    })
}

/// The links behind each ` by ` of the question.
fn links(alloc: Global, asked: &str) -> Option<Seq<Link>> {
    let mut links = Vec::new(alloc);
    for words in asked.split(" by ").skip(1) {
        links.push(link(alloc, words)?).ok()?;
    }
    Some(Seq::from_vec(links))
}

/// The place and the configuration of a refusal, its reference, and its chain.
type ClaimedParts = ((Place, Config), (ObjRef, Seq<Link>));

fn parts(alloc: Global, asked: &str) -> Option<ClaimedParts> {
    let where_it_is = place(alloc, asked).zip(config(alloc, word(asked, 6)));
    let object = reference(alloc, word(asked, 7), word(asked, 8));
    where_it_is.zip(object.zip(links(alloc, asked)))
}

/// The refusal that is written so: `claimed KIND GROUP OBJECT INDEX ACTION SCENE GROUP OBJECT`, its place, its action or
/// `-`, its scene or `-`, and the reference; and for each link ` by GROUP OBJECT INDEX GROUP OBJECT`.
pub fn claimed(alloc: Global, service: Service, asked: &str) -> Option<Refusal> {
    let claimed = kind(asked).zip(parts(alloc, asked)).zip(Some(service));
    let ((kind, ((place, config), (object, chain))), service) = claimed?;
    Some(Refusal {
        kind,
        place: Some(place),
        action: ActionName::of_word(word(asked, 5).as_bytes()),
        config: Some(config),
        object: Some(object),
        chain,
        cycle: Seq::new(alloc),
        service,
    })
}

#[test]
fn shows_nothing_else(rt: HostRuntime) {
    all_hold::<Asked>(&rt, rt.alloc(), CHANGED);
    all_hold::<Asked>(&rt, rt.alloc(), WRITTEN);
    all_hold::<Asked>(&rt, rt.alloc(), BROUGHT);
}
