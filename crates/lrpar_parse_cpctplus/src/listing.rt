//! The repairs that a search has found, in their order.
ghost use Rattle.std.specs.Prelude.{◌≡◌, ◌<◌, ◌≤◌, ◌-◌, ◌^◌, ◌↔◌, true, false, IfOk, IsTrue, OnOk, length, map};
ghost use Rattle.lrpar_parse_cpctplus.specs.Chosen.{IsBelow, IsFurthestBelow, above};
ghost use Rattle.lrpar_parse_cpctplus.specs.Counted.{counted};
ghost use Rattle.lrpar_parse_cpctplus.specs.LinkView.{AreNumbered};
ghost use Rattle.lrpar_parse_cpctplus.specs.WantedView.{AddsGroup, AreLinksToEnd, AreRankedBy};

use crate::form::{Class, Form};
use crate::layer::Layer;
use crate::link::{Ending, Link, Linked};
use crate::nodes::Nodes;
use lrpar_grammar::span::StorageIndex;
use lrpar_parse_repair::repair::RepairStep;
use std::alloc::{AllocError, Global};

/// Which repairs are listed: tokens to be avoided, how many repairs at most, and whether all may be, or only those after which a parse
/// goes on furthest.
#[derive(Clone, Copy)]
pub(crate) struct Wanted<'a> {
    pub(crate) avoided: &'a [bool],
    pub(crate) most: usize,
    pub(crate) lists_all: bool,
}

/// A first step, and which of the rests after it is meant: the place among those of a form from a node.
#[derive(Clone, Copy)]
pub(crate) struct Choice<StorageT: Copy> {
    step: RepairStep<StorageT>,
    node: usize,
    form: Form,
    place: usize,
}

/// The first repairs, as many as may be listed: those first after which a parse goes on furthest, and others only if all may be.
pub(crate) fn first_repairs<StorageT: StorageIndex>(
    alloc: Global,
    wanted: &Wanted<'_>,
    linked: &Linked<StorageT>,
) -> Result<Vec<Vec<RepairStep<StorageT>>>, AllocError>
    requires numbered { AreNumbered linked.now }
    ensures ranked { IfOk result (AreRankedBy StorageT.index wanted.now linked.now wanted.now.lists_all) }
{
    if wanted.lists_all {
        all_repairs(alloc, wanted, linked)
    } else {
        furthest_repairs(alloc, wanted, linked)
    }
}

// Those of all groups.
fn all_repairs<StorageT: StorageIndex>(
    alloc: Global,
    wanted: &Wanted<'_>,
    linked: &Linked<StorageT>,
) -> Result<Vec<Vec<RepairStep<StorageT>>>, AllocError>
    requires numbered { AreNumbered linked.now }
    ensures ranked { IfOk result (AreRankedBy StorageT.index wanted.now linked.now true) }
{
    let mut listed = Vec::new(alloc);
    let mut reach = furthest(&linked.endings, None);
    'groups: while let Some(far) = reach {
        if listed.len() >= wanted.most {
            return Ok(listed);
        }
        push_group(alloc, wanted, linked, far, &mut listed)?;
        reach = furthest(&linked.endings, Some(far));
    }
    Ok(listed)
}

// Those of the first group alone.
fn furthest_repairs<StorageT: StorageIndex>(
    alloc: Global,
    wanted: &Wanted<'_>,
    linked: &Linked<StorageT>,
) -> Result<Vec<Vec<RepairStep<StorageT>>>, AllocError>
    requires numbered { AreNumbered linked.now }
    ensures ranked { IfOk result (AreRankedBy StorageT.index wanted.now linked.now false) }
{
    let mut listed = Vec::new(alloc);
    let Some(far) = furthest(&linked.endings, None) else {
        return Ok(listed);
    };
    push_group(alloc, wanted, linked, far, &mut listed)?;
    Ok(listed)
}

// The furthest place of the endings below the bound, if there is one.
fn furthest<StorageT: StorageIndex>(
    endings: &[Ending<StorageT>],
    bound: Option<u128>,
) -> Option<u128>
    ensures { IsFurthestBelow (map (λ ending. ending.reach) endings.now) bound result }
{
    let mut found = None;
    for ending in endings {
        let reach = ending.reach;
        if is_below(reach, bound) && is_above(reach, found) {
            found = Some(reach);
        }
    }
    found
}

// Whether it is below the bound, if there is one.
fn is_below(reach: u128, bound: Option<u128>) -> bool
    ensures { IsTrue result ↔ IsBelow reach bound }
{
    match bound {
        None => true,
        Some(bound) => reach < bound,
    }
}

// Whether it is above what is found.
fn is_above(reach: u128, found: Option<u128>) -> bool
    ensures { IsTrue result ↔ (above found ≤ reach) }
{
    match found {
        None => true,
        Some(found) => found < reach,
    }
}

// Adds the first ones of the repairs after which a parse goes on to this place.
fn push_group<StorageT: StorageIndex>(
    alloc: Global,
    wanted: &Wanted<'_>,
    linked: &Linked<StorageT>,
    reach: u128,
    listed: &mut Vec<Vec<RepairStep<StorageT>>>,
) -> Result<(), AllocError>
    requires numbered { AreNumbered linked.now }
    ensures group { OnOk result (AddsGroup StorageT.index wanted.now linked.now reach listed.old listed.new) }
{
    let links = links_to_end(alloc, linked, reach)?;
    let nodes = Nodes::new(alloc, wanted.avoided, linked.len, links)?;
    let layers = nodes.layers(alloc)?;
    nodes.push_all(alloc, &layers, wanted.most, listed)
}

// The links, and as links to the end the last steps after which a parse goes on to this place.
fn links_to_end<StorageT: StorageIndex>(
    alloc: Global,
    linked: &Linked<StorageT>,
    reach: u128,
) -> Result<Vec<Link<StorageT>>, AllocError>
    ensures { IfOk result (AreLinksToEnd StorageT.index linked.now reach) }
{
    let mut links = Vec::from_slice(alloc, &linked.links)?;
    for ending in &linked.endings {
        if ending.reach == reach {
            links.push(Link {
                from: ending.from,
                step: ending.step,
                to: linked.len,
            })?;
        }
    }
    Ok(links)
}

impl<'a, StorageT: StorageIndex> Nodes<'a, StorageT> {
    ghost use Rattle.lrpar_parse_cpctplus.specs.NodesView.{AddsClass, AddsLength, AddsRepairs, AreAllLayers, AreLayersOf, IsChosen, IsRepairAt, repairs_of};

    // Adds the first ones of all repairs: those first that insert no token to be avoided, and then those of fewer steps.
    fn push_all(
        &self,
        alloc: Global,
        layers: &[Layer],
        most: usize,
        listed: &mut Vec<Vec<RepairStep<StorageT>>>,
    ) -> Result<(), AllocError>
        requires layers { AreAllLayers StorageT.index self.now layers.now }
        ensures { OnOk result (AddsRepairs StorageT.index self.now most listed.old listed.new) }
    {
        self.push_class(alloc, layers, Class::Clean, most, listed)?;
        self.push_class(alloc, layers, Class::Avoided, most, listed)
    }

    // Adds the first ones of a class.
    fn push_class(
        &self,
        alloc: Global,
        layers: &[Layer],
        class: Class,
        most: usize,
        listed: &mut Vec<Vec<RepairStep<StorageT>>>,
    ) -> Result<(), AllocError>
        requires layers { AreLayersOf StorageT.index self.now layers.now }
        ensures { OnOk result (AddsClass StorageT.index self.now class (length layers.now) most listed.old listed.new) }
    {
        for steps in 0..layers.len() {
            self.push_length(alloc, layers, class, steps, most, listed)?;
        }
        Ok(())
    }

    // Adds the first ones of a class and a number of steps.
    fn push_length(
        &self,
        alloc: Global,
        layers: &[Layer],
        class: Class,
        steps: usize,
        most: usize,
        listed: &mut Vec<Vec<RepairStep<StorageT>>>,
    ) -> Result<(), AllocError>
        requires layers { AreLayersOf StorageT.index self.now layers.now }
        requires steps { steps < length layers.now }
        ensures { OnOk result (AddsLength StorageT.index self.now class steps most listed.old listed.new) }
    {
        let many = layers[steps].count(0, Form::new(class, false));
        let mut place = 0;
        'places: while place < many && listed.len() < most {
            let repair = self.repair(alloc, layers, class, steps, place)?;
            listed.push(repair)?;
            place += 1;
        }
        Ok(())
    }

    // The repair at this place of those of a class and a number of steps.
    fn repair(
        &self,
        alloc: Global,
        layers: &[Layer],
        class: Class,
        steps: usize,
        place: usize,
    ) -> Result<Vec<RepairStep<StorageT>>, AllocError>
        requires layers { AreLayersOf StorageT.index self.now layers.now }
        requires steps { steps < length layers.now }
        requires place { place < counted (repairs_of StorageT.index self.now class steps) }
        ensures { IfOk result (IsRepairAt StorageT.index self.now class steps place) }
    {
        let mut repair = Vec::with_capacity(alloc, steps)?;
        let mut node = 0;
        let mut form = Form::new(class, false);
        let mut place = place;
        let mut left = steps;
        'steps: while left > 0 {
            left -= 1;
            let Some(choice) = self.choose(&layers[left], node, form, place) else {
                unreachable!()
            };
            repair.push(choice.step)?;
            node = choice.node;
            form = choice.form;
            place = choice.place;
        }
        Ok(repair)
    }

    // The first step of the rest at this place of those with the form from a node, which have one step more than those of the layer.
    fn choose(
        &self,
        layer: &Layer,
        node: usize,
        form: Form,
        place: usize,
    ) -> Option<Choice<StorageT>>
        requires fits { place < 2 ^ 64 - 1 }
        ensures { IsChosen StorageT.index self.now layer.now node form place result }
    {
        let links = self.links_from(node);
        let mut left = place;
        for link in links {
            let after = form.after(self.avoided, link.step);
            let many = layer.count(link.to, after);
            if left < many {
                return Some(Choice {
                    step: link.step,
                    node: link.to,
                    form: after,
                    place: left,
                });
            }
            left -= many;
        }
        None
    }
}
