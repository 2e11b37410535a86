//! A filter that is read once, before entries are looked at.

ghost use Rattle.std.specs.Prelude.{◌≡◌, IfOk, map};
ghost use Rattle.adr_filter.specs.Seen.{tree};
ghost use Rattle.adr_search.specs.Match.{matches, tested};
ghost use Rattle.adr_search.specs.Plans.{all_true, one_true, truth_in};
ghost use Rattle.adr_search.specs.Seen.{asked_in};

use crate::asked::{Asked, Test, test_of};
use crate::fields::{Place, field_named};
use crate::meeting::judged;
use crate::truth::Truth;
use adr_call::Entry;
use adr_filter::Filter;
use adr_values::{NoMemory, Text};
use std::alloc::Global;

/// A filter, with its names looked up and its values read.
#[derive(Drop)]
pub enum Plan {
    And(Vec<Plan>),
    Or(Vec<Plan>),
    Not(Box<Plan>),
    /// The name is that of no field.
    Unknown,
    /// A test of the values in a place; none where a value of the filter couldn't be read.
    Values(Place, Option<Test>),
}

/// The plan of a test of an attribute.
fn plan_of_test(alloc: Global, attr: &Text, asked: Asked<'_>) -> Result<Plan, NoMemory>
    ensures { IfOk result (λ plan. truth_in plan ≡ tested attr.now (asked_in asked.entry)) }
{
    match field_named(alloc, attr.items())? {
        None => Ok(Plan::Unknown),
        Some(field) => Ok(Plan::Values(field.place, test_of(alloc, field.form, asked)?)),
    }
}

#[cycle(planning)]
fn plan_of(alloc: Global, filter: &Filter) -> Result<Plan, NoMemory>
    ensures { IfOk result (λ plan. truth_in plan ≡ matches (tree filter.now)) }
{
    match filter {
        Filter::And(parts) => Ok(Plan::And(plans_of(alloc, parts)?)),
        Filter::Or(parts) => Ok(Plan::Or(plans_of(alloc, parts)?)),
        Filter::Not(part) => Ok(Plan::Not(Box::new(alloc, plan_of(alloc, &**part)?)?)),
        Filter::Equal { attr, value } => plan_of_test(alloc, attr, Asked::Equal(value)),
        Filter::AtLeast { attr, value } => plan_of_test(alloc, attr, Asked::AtLeast(value)),
        Filter::AtMost { attr, value } => plan_of_test(alloc, attr, Asked::AtMost(value)),
        Filter::Present { attr } => plan_of_test(alloc, attr, Asked::Present),
        Filter::Substrings {
            attr,
            initial,
            middle,
            last,
        } => {
            let middle = middle.as_slice();
            let asked = Asked::Pattern {
                initial,
                middle,
                last,
            };
            plan_of_test(alloc, attr, asked)
        }
    }
}

#[cycle(planning)]
fn plans_of(alloc: Global, parts: &Vec<Filter>) -> Result<Vec<Plan>, NoMemory>
    ensures { IfOk result (λ plans. map truth_in plans.items ≡ map (λ f. matches (tree f)) parts.now.items) }
{
    let mut plans = Vec::with_capacity(alloc, parts.len())?;
    for part in parts {
        plans.push(plan_of(alloc, part)?)?;
    }
    Ok(plans)
}

/// Reads a filter.
pub fn read_filter(alloc: Global, filter: &Filter) -> Result<Plan, NoMemory>
    ensures { IfOk result (λ plan. truth_in plan ≡ matches (tree filter.now)) }
{
    plan_of(alloc, filter)
}

#[cycle(judging)]
fn truth_of(alloc: Global, plan: &Plan, entry: &Entry) -> Result<Truth, NoMemory>
    ensures { IfOk result (λ truth. truth ≡ truth_in plan.now entry.now) }
{
    match plan {
        Plan::And(parts) => least_of(alloc, parts, entry),
        Plan::Or(parts) => greatest_of(alloc, parts, entry),
        Plan::Not(part) => Ok(truth_of(alloc, &**part, entry)?.not()),
        Plan::Unknown => Ok(Truth::Undefined),
        Plan::Values(place, test) => judged(alloc, *place, test, entry),
    }
}

#[cycle(judging)]
fn least_of(alloc: Global, parts: &Vec<Plan>, entry: &Entry) -> Result<Truth, NoMemory>
    ensures { IfOk result (λ truth. truth ≡ all_true (map truth_in parts.now.items) entry.now) }
{
    let mut least = Truth::True;
    for part in parts {
        least = least.and(truth_of(alloc, part, entry)?);
    }
    Ok(least)
}

#[cycle(judging)]
fn greatest_of(alloc: Global, parts: &Vec<Plan>, entry: &Entry) -> Result<Truth, NoMemory>
    ensures { IfOk result (λ truth. truth ≡ one_true (map truth_in parts.now.items) entry.now) }
{
    let mut greatest = Truth::False;
    for part in parts {
        greatest = greatest.or(truth_of(alloc, part, entry)?);
    }
    Ok(greatest)
}

/// What a filter that was read is of an entry.
pub fn held_against(alloc: Global, plan: &Plan, entry: &Entry) -> Result<Truth, NoMemory>
    ensures { IfOk result (λ truth. truth ≡ truth_in plan.now entry.now) }
{
    truth_of(alloc, plan, entry)
}
