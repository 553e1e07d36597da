//! Findings as objects of JSON.
ghost use Rattle.std.specs.Prelude.{◌≡◌, ◌++◌, Some, IfOk, OnOk, string_bytes};
ghost use Rattle.std.specs.Option.{option_copied};
ghost use Rattle.serde_json.specs.Data.{array, string};
ghost use Rattle.serde_json.specs.View.{view, items_view};
ghost use Rattle.serde_json.specs.Written.{compact_text};
ghost use Rattle.mh_findings.specs.Json.{FindingsReadBack, finding_data, finding_of, json_line, mend_data, point_data, related_data, related_items, site_data, span_data};

use crate::finding::{Finding, Related, Site};
use crate::message::grade_word;
use crate::words::Words;
use mh_places::{Point, Span};
use mh_told::text::Text;
use serde_json::{Map, Value, json, put};
use std::alloc::{AllocError, Global};

/// What is written of a finding holds that finding.
pub fn findings_read_back()
    ensures { FindingsReadBack }
{}

/// Puts the object of a finding, and a line feed.
#[tactic(auto, unfolding(crate::specs::Json::json_line))]
pub(crate) fn put_json(alloc: Global, text: &mut Text, finding: &Finding) -> Result<(), AllocError>
    ensures { OnOk result (text.new ≡ text.old ++ json_line finding.now) }
{
    let written = json_of(alloc, finding)?;
    text.put(written.as_bytes())?;
    text.put(b"\n")
}

/// The object of a finding as a text, which reads back as the finding.
pub fn json_of(alloc: Global, finding: &Finding) -> Result<String, AllocError>
    ensures text { IfOk result (λ text. string_bytes text ≡ compact_text (finding_data finding.now)) }
    ensures reads_back { IfOk result (λ text. finding_of (string_bytes text) ≡ Some finding.now) }
{
    let value = finding_value(alloc, finding)?;
    value.to_string(alloc)
}

#[tactic(auto, unfolding(crate::specs::Json::finding_data))]
fn finding_value(alloc: Global, finding: &Finding) -> Result<Value, AllocError>
    ensures { IfOk result (λ value. view value ≡ finding_data finding.now) }
{
    let mut members = Map::new(alloc);
    put(&mut members, alloc, "at", site_value(alloc, &finding.at)?)?;
    put(
        &mut members,
        alloc,
        "grade",
        Value::try_from_str(alloc, grade_word(finding.grade))?,
    )?;
    put(
        &mut members,
        alloc,
        "mend",
        mend_value(alloc, finding.mend.as_ref())?,
    )?;
    put(
        &mut members,
        alloc,
        "related",
        related_value(alloc, finding.related.as_slice())?,
    )?;
    put(
        &mut members,
        alloc,
        "rule",
        Value::try_from_str(alloc, finding.rule.as_str())?,
    )?;
    put(
        &mut members,
        alloc,
        "what",
        Value::try_from_str(alloc, finding.what.as_str())?,
    )?;
    Ok(Value::Object(members))
}

#[tactic(auto, unfolding(crate::specs::Json::mend_data))]
fn mend_value(alloc: Global, mend: Option<&Words>) -> Result<Value, AllocError>
    ensures { IfOk result (λ value. view value ≡ mend_data (option_copied mend.entry)) }
{
    match mend {
        None => Ok(Value::Null),
        Some(mend) => Value::try_from_str(alloc, mend.as_str()),
    }
}

fn related_value(alloc: Global, related: &[Related]) -> Result<Value, AllocError>
    ensures { IfOk result (λ value. view value ≡ array (related_items related.now)) }
{
    let mut items = Vec::new(alloc);
    for other in related {
        items.push(related_to(alloc, other)?)?;
    }
    Ok(Value::Array(items))
}

#[tactic(auto, unfolding(crate::specs::Json::related_data))]
fn related_to(alloc: Global, related: &Related) -> Result<Value, AllocError>
    ensures { IfOk result (λ value. view value ≡ related_data related.now) }
{
    let mut members = Map::new(alloc);
    put(&mut members, alloc, "at", site_value(alloc, &related.at)?)?;
    put(
        &mut members,
        alloc,
        "what",
        Value::try_from_str(alloc, related.what.as_str())?,
    )?;
    Ok(Value::Object(members))
}

#[tactic(auto, unfolding(crate::specs::Json::site_data))]
fn site_value(alloc: Global, site: &Site) -> Result<Value, AllocError>
    ensures { IfOk result (λ value. view value ≡ site_data site.now) }
{
    let mut members = Map::new(alloc);
    put(
        &mut members,
        alloc,
        "file",
        Value::try_from_str(alloc, site.file.as_str())?,
    )?;
    put(&mut members, alloc, "span", span_value(alloc, &site.span)?)?;
    Ok(Value::Object(members))
}

#[tactic(auto, unfolding(crate::specs::Json::span_data))]
fn span_value(alloc: Global, span: &Span) -> Result<Value, AllocError>
    ensures { IfOk result (λ value. view value ≡ span_data span.now) }
{
    let mut members = Map::new(alloc);
    put(&mut members, alloc, "end", point_value(alloc, &span.end)?)?;
    put(
        &mut members,
        alloc,
        "start",
        point_value(alloc, &span.start)?,
    )?;
    Ok(Value::Object(members))
}

#[tactic(auto, unfolding(crate::specs::Json::point_data))]
fn point_value(alloc: Global, point: &Point) -> Result<Value, AllocError>
    ensures { IfOk result (λ value. view value ≡ point_data point.now) }
{
    json!(in alloc; {"byte": point.byte as u64, "column": point.column as u64, "line": point.line as u64})
}
