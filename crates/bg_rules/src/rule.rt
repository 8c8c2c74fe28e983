//! Rules: what a reaction may do.
ghost use Rattle.std.specs.Prelude.{◌≡◌, ◌↔◌, ◌<◌, ◌-◌, ◌^◌, IfOk, IsErrOf, IsTrue, length};
ghost use Rattle.std.specs.List.{All};
ghost use Rattle.bg_base.specs.Bigraph.{IsValid};
ghost use Rattle.bg_rules.specs.Rules as defined;
ghost use Rattle.bg_rules.specs.Rules.{SidesAgree, MapFits, IsNumberedFromZero, IsRule};

use crate::{Condition, Pattern, RuleFault};
use bg_base::{Big, Label, Map, Name};
use bg_lists::Rows;
use std::marker::Model;

/// A rule (Milner, chapter 8): where its redex occurs, its reactum may take the place. Site i of the reactum, counted
/// from 0, gets a copy of what is in site `map[i]` of the redex. Both sides have the same regions and outer names, and
/// no inner names; the nodes of the reactum, and its edges, are numbered 0, 1, 2 and so on. The class says the rule's
/// priority: a lower number is a higher one. A contract sees the parts.
#[derive(Debug, Drop)]
pub struct Rule {
    label: Label,
    redex: Pattern,
    reactum: Big,
    map: Map,
    conditions: Rows<Condition>,
    class: u32,
}

impl Model for Rule {
    ghost use Rattle.bg_rules.specs.Rules.{RuleParts, IsRule};

    ghost Value = { RuleParts };

    ghost view = { λ rule. record {
      label = rule.label;
      redex = rule.redex;
      reactum = rule.reactum;
      map = rule.map;
      conditions = rule.conditions;
      class = rule.class;
    } };

    ghost invariant = { λ rule. IsRule (record {
      label = rule.label;
      redex = rule.redex;
      reactum = rule.reactum;
      map = rule.map;
      conditions = rule.conditions;
      class = rule.class;
    }) };
}

impl Rule {
    /// The rule of these parts. It refuses, in this order: `SidesDiffer` where the regions or the outer names of redex
    /// and reactum differ or the reactum has an inner name, `BadMap` where the map has not as many entries as the
    /// reactum has sites, or an entry is not below the number of the redex's sites. Takes no memory, and time in
    /// proportion to the outer names and the map.
    pub fn new(
        label: Label,
        redex: Pattern,
        reactum: Big,
        map: Map,
        conditions: Rows<Condition>,
        class: u32,
    ) -> Result<Rule, RuleFault>
        requires reactum_valid { IsValid reactum }
        requires reactum_numbered { IsNumberedFromZero reactum }
        ensures parts { IfOk result (λ rule. rule ≡ record {
          label = label;
          redex = redex;
          reactum = reactum;
          map = map;
          conditions = conditions;
          class = class;
        }) }
        ensures sides_differ { IsErrOf result RuleFault.SidesDiffer ↔ ¬ SidesAgree redex reactum }
        ensures bad_map { IsErrOf result RuleFault.BadMap ↔ (SidesAgree redex reactum × ¬ MapFits redex reactum map) }
    {
        if !sides_agree(redex.big(), &reactum) {
            return Err(RuleFault::SidesDiffer);
        }
        if !map_fits(redex.big(), &reactum, &map) {
            return Err(RuleFault::BadMap);
        }
        Ok(Rule {
            label,
            redex,
            reactum,
            map,
            conditions,
            class,
        })
    }

    /// What the rule is called.
    pub fn label(&self) -> &Label
        ensures { result.now ≡ self.now.label }
    {
        &self.label
    }

    /// What has to occur.
    pub fn redex(&self) -> &Pattern
        ensures same { result.now ≡ self.now.redex }
        ensures kept { IsRule self.now }
    {
        &self.redex
    }

    /// What takes its place.
    pub fn reactum(&self) -> &Big
        ensures same { result.now ≡ self.now.reactum }
        ensures kept { IsRule self.now }
    {
        &self.reactum
    }

    /// For each site of the reactum the site of the redex of which it gets a copy.
    pub fn map(&self) -> &Map
        ensures same { result.now ≡ self.now.map }
        ensures kept { IsRule self.now }
    {
        &self.map
    }

    /// The conditions, in order, fewer than 4,294,967,295.
    pub fn conditions(&self) -> &[Condition]
        ensures same { result.now ≡ self.now.conditions }
        ensures few { length result.now < 2 ^ 32 - 1 }
    {
        self.conditions.as_slice()
    }

    /// The class, counted from 0.
    pub fn class(&self) -> u32
        ensures { result ≡ self.now.class }
    {
        self.class
    }
}

/// Whether the reactum has the regions and the outer names of the redex, and no inner name. Takes no memory, and time
/// in proportion to the names.
pub fn sides_agree(redex: &Big, reactum: &Big) -> bool
    ensures test { result ≡ defined.sides_agree redex.now reactum.now }
    ensures agree { IsTrue result ↔ SidesAgree redex.now reactum.now }
{
    let agree = are_alike(redex, reactum);
    agree
}

fn are_alike(redex: &Big, reactum: &Big) -> bool
    ensures { IsTrue result ↔ SidesAgree redex.now reactum.now }
{
    redex.regions == reactum.regions
        && names_agree(&redex.outer, &reactum.outer)
        && reactum.inner.is_empty()
}

/// Whether the names are the same, in the same order.
fn names_agree(names: &[Name], others: &[Name]) -> bool
    ensures { IsTrue result ↔ (names.now ≡ others.now) }
{
    if names.len() != others.len() {
        return false;
    }
    for (at, name) in names.iter().enumerate() {
        if !is_name(&others[at], name) {
            return false;
        }
    }
    true
}

fn is_name(other: &Name, name: &Name) -> bool
    ensures { IsTrue result ↔ (name.now ≡ other.now) }
{
    *other == *name
}

/// Whether the map has an entry for each site of the reactum, and each entry is a site of the redex. Takes no memory,
/// and time in proportion to the map.
pub fn map_fits(redex: &Big, reactum: &Big, map: &Map) -> bool
    ensures test { result ≡ defined.map_fits redex.now reactum.now map.now }
    ensures fits { IsTrue result ↔ MapFits redex.now reactum.now map.now }
{
    let fits = leads_to_sites(redex, reactum, map);
    fits
}

fn leads_to_sites(redex: &Big, reactum: &Big, map: &Map) -> bool
    ensures { IsTrue result ↔ MapFits redex.now reactum.now map.now }
{
    map.len() == reactum.sites.len() && are_below(map, redex.sites.len())
}

/// Whether each of the numbers is below that one.
fn are_below(numbers: &[u32], count: u32) -> bool
    ensures { IsTrue result ↔ All (λ number. number < count) numbers.now }
{
    numbers.iter().all(|number| *number < count)
}
