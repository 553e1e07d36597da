//! The links, found by the numbers of the objects and the types of the events that they wait for.
//!
//! An event mostly has no link that waits for its type from an object of its number, and then no name is looked at.
ghost use Rattle.std.specs.Prelude.{◌≡◌, ◌++◌, ◌+◌, ◌%◌, ◌^◌, ◌<◌, IfOk, OnOk, length, true, []};
ghost use Rattle.std.specs.Option.{option_copied, option_map_or};
ghost use Rattle.mh_base.specs.Event.{number_of};
ghost use Rattle.mh_model.specs.Items.{heard as heard_lem};
ghost use Rattle.mh_model.specs.Service.{parts};
ghost use Rattle.mh_model.specs.State.{all};
ghost use Rattle.mh_work.specs.Listening.{bucket_for, place_in, waiting, waiting_in};
ghost use Rattle.mh_work.specs.Links.{answers, listener_of, place_of, places, source_of, IsIndex};
ghost use Rattle.mh_work.specs.Batches.{written};

use crate::batch::Batch;
use crate::bucket::{Bucket, Listener};
use crate::hearing::put_answer;
use mh_base::{ObjRef, Value};
use mh_group::{Attribute, Class};
use mh_model::held::{as_event, as_value};
use mh_model::{Event, Fixed, FixedPart};
use mh_store::Objects;
use std::alloc::{AllocError, Global};
use std::marker::Model;

/// The links among the objects that are present, by what they wait for. A contract sees the buckets; `IsIndex`
/// says of which parts they are the index.
#[derive(Drop)]
pub struct Links {
    /// Each link is in the bucket of the number of its source, modulo their count. There are half as many as
    /// objects that are present, so that the links of a few objects share one, however large a scene is.
    buckets: Vec<Bucket>,
}

impl Model for Links {
    ghost use Rattle.std.specs.Prelude.{◌<◌, length};
    ghost use Rattle.mh_work.specs.Listening.{Index};

    ghost Value = { Index };

    ghost view = { λ links. links.buckets.items };

    ghost invariant = { λ links. 0 < length links.buckets.items };
}

impl Links {
    /// The links among the application's parts and then the scene's.
    pub fn of(
        alloc: Global,
        application: &[FixedPart],
        scene: &[FixedPart],
    ) -> Result<Links, AllocError>
        ensures { IfOk result (λ links. IsIndex links (application.now ++ scene.now)) }
    {
        let mut links = Links::new(alloc, application.len() / 2 + scene.len() / 2 + 1)?;
        links.add_parts(0, application)?;
        links.add_parts(application.len(), scene)?;
        Ok(links)
    }

    /// The effects of all links that hear the event, in the order of the objects. Only the links
    /// that wait for its type from an object of its source's number are asked.
    pub fn heard(
        &self,
        alloc: Global,
        event: &Event,
        objects: &Objects,
    ) -> Result<Vec<Batch>, AllocError>
        requires { IsIndex self.now (parts (all objects.now)) }
        ensures { IfOk result
            (λ batches. written batches.items ≡ heard_lem event.now (all objects.now)) }
    {
        let listeners = self.bucket(event.source.number).as_slice();
        heard_among(alloc, listeners, event, objects)
    }

    /// Whether no link waits for the event's type from an object of the number of its source, so that none hears it.
    pub fn hears_none(&self, event: &Event, objects: &Objects) -> bool
        requires { IsIndex self.now (parts (all objects.now)) }
        ensures { result ≡ true → heard_lem event.now (all objects.now) ≡ [] }
    {
        self.bucket(event.source.number)
            .has_none(event.kind.number())
    }

    /// An index of no links, with so many buckets.
    fn new(alloc: Global, count: usize) -> Result<Links, AllocError>
        requires { 0 < count }
        ensures { IfOk result (λ links. (n : _) → (t : _) → waiting n t links ≡ []) }
    {
        let mut buckets = Vec::with_capacity(alloc, count)?;
        for _ in 0..count {
            buckets.push(Bucket::new(alloc))?;
        }
        Ok(Links { buckets })
    }

    /// The bucket of the links whose sources have this number, among others.
    fn bucket(&self, number: u32) -> &Bucket
        ensures { result.now ≡ bucket_for number self.now }
    {
        &self.buckets[bucket_of(number, self.buckets.len())]
    }

    fn add_parts(&mut self, first: usize, parts: &[FixedPart]) -> Result<(), AllocError>
        requires { first + length parts.now < 2 ^ 64 }
        ensures { OnOk result
            ((n : _) → (t : _) →
            waiting n t self.new ≡ waiting n t self.old ++ places first n t parts.now) }
    {
        for (index, part) in parts.iter().enumerate() {
            self.add_part(first + index, part.get())?;
        }
        Ok(())
    }

    fn add_part(&mut self, place: usize, part: &Fixed) -> Result<(), AllocError>
        ensures { OnOk result
            ((n : _) → (t : _) →
            waiting n t self.new ≡ waiting n t self.old ++ place_of place n t part.now) }
    {
        match listener_of(place, part) {
            Some(listener) => self.add(listener),
            None => Ok(()),
        }
    }

    fn add(&mut self, listener: Listener) -> Result<(), AllocError>
        ensures { OnOk result
            ((n : _) → (t : _) →
            waiting n t self.new ≡ waiting n t self.old ++ place_in n t listener) }
    {
        let place = bucket_of(listener.source, self.buckets.len());
        self.buckets[place].push(listener)?;
        Ok(())
    }
}

/// The place of the bucket for a number, of so many.
fn bucket_of(number: u32, count: usize) -> usize
    requires { 0 < count }
    ensures place { result ≡ number % count }
    ensures low { result < count }
{
    number as usize % count
}

/// What the index keeps of the part, if it is a link with a source and a type.
fn listener_of(place: usize, part: &Fixed) -> Option<Listener>
    ensures { result ≡ listener_of place part.now }
{
    let source = source_of(part)?;
    let kind = as_event(part.properties.get(Attribute::EventType))?;
    Some(Listener {
        source: source.number,
        kind: kind.number(),
        place,
    })
}

/// The object whose events the part waits for, if it is a link.
fn source_of(part: &Fixed) -> Option<&ObjRef>
    ensures { option_copied result ≡ source_of part.now }
{
    if !matches!(part.class, Class::Link) {
        return None;
    }
    match as_value(part.properties.get(Attribute::EventSource)) {
        Some(Value::Object(source)) => Some(source),
        _ => None,
    }
}

/// What those of these links put that hear the event.
fn heard_among(
    alloc: Global,
    listeners: &[Listener],
    event: &Event,
    objects: &Objects,
) -> Result<Vec<Batch>, AllocError>
    ensures { let n = event.now.source.number in let t = number_of event.now.kind in
        IfOk result (λ batches. written batches.items ≡ answers event.now (all objects.now) (waiting_in n t listeners.now)) }
{
    let mut batches = Vec::new(alloc);
    for listener in listeners {
        put_heard(&mut batches, *listener, event, objects)?;
    }
    Ok(batches)
}

/// What the link puts, if it waits for the event and hears it.
fn put_heard(
    batches: &mut Vec<Batch>,
    listener: Listener,
    event: &Event,
    objects: &Objects,
) -> Result<(), AllocError>
    ensures { let n = event.now.source.number in let t = number_of event.now.kind in
        OnOk result (written batches.new.items ≡ written batches.old.items ++ answers event.now (all objects.now) (place_in n t listener)) }
{
    if !listener.hears(event.source.number, event.kind.number()) {
        return Ok(());
    }
    match objects.at(listener.place) {
        Some(object) => put_answer(batches, event, object),
        None => Ok(()),
    }
}
