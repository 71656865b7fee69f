ghost use Rattle.std.specs.Prelude.{◌≡◌, ℕ, ◌+◌, ◌^◌, ◌<◌, ◌≤◌, ◌↔◌, ◌++◌, length, take};
ghost use Rattle.std.specs.Prelude.{slice_index, All, IsTrue, IfOk, []};
ghost use Rattle.pull_system.specs.System.{IsPull, HoldsPull};
ghost use Rattle.pull_fans.specs.Sources.{numbers_from};
ghost use Rattle.pull_fans.specs.Fans.{pulls_of_fans};
ghost use Rattle.pull_fans.specs.Growing.{grown_pulls};

use crate::asks::{AskRows, all_asks};
use crate::fan::{Fan, row_of};
use crate::first::{fans_with, first_of, first_pulls, forget_behind, joined, learn_behind};
use crate::growing::grown_fans;
use crate::places::{Place, places_of, sort_by_source};
use pota_base::{List, NoMemory, Shape, Steps};
use pull_system::Pull;
use std::alloc::Global;
use std::marker::Model;
use std::sync::ledger::Ledger;

/// A shape and the pulls between its processes, held as fans. Contracts see the lengths and the
/// list of pulls.
#[derive(Debug, Drop)]
pub struct System {
    shape: Shape,
    fans: List<Fan>,
    /// Where each pull stands among the fans.
    places: List<Place>,
    /// The numbers of each process's outgoing pulls.
    by_source: List<List<u32>>,
    /// For each process one row per value of its component, of one entry per target: the most that
    /// a pull asks of it, 0 for none. These may be the rows of a fan.
    asks: List<AskRows>,
}

impl Model for System {
    ghost use Rattle.pull_system.specs.System.{SystemView, IsSystem};
    ghost use Rattle.pull_fans.specs.inside.Sources.{AreBySource};
    ghost use Rattle.pull_fans.specs.inside.Asks.{AreAllAsks};
    ghost use Rattle.pull_fans.specs.Fans.{pulls_of_fans};
    ghost use Rattle.pull_fans.specs.inside.Places.{ArePlaces};

    ghost Value = { SystemView };

    ghost view = { λ system. record { lens = system.shape; pulls = pulls_of_fans system.fans } };

    ghost invariant = { λ system.
        IsSystem record { lens = system.shape; pulls = pulls_of_fans system.fans }
        × ArePlaces system.fans system.places (pulls_of_fans system.fans)
        × AreBySource record { lens = system.shape; pulls = pulls_of_fans system.fans }
        system.by_source
        × AreAllAsks record { lens = system.shape; pulls = pulls_of_fans system.fans } system.fans
        system.asks };
}

impl System {
    ghost use Rattle.pota_base.specs.Shape.{IsShape};
    ghost use Rattle.pull_system.specs.Vector.{IsVector};
    ghost use Rattle.pull_system.specs.System.{SystemView, IsSystem, IsClosed, pull_at, ask};
    ghost use Rattle.pull_system.specs.System.{source_of, target_of};
    ghost use Rattle.pull_fans.specs.Asks.{AreAsks};
    ghost use Rattle.pull_fans.specs.inside.Asks.{AreAskRows};

    /// The system of these pulls, of which there are fewer than 2^32. They keep their order.
    pub fn new(alloc: Global, shape: &Shape, pulls: List<Pull>) -> Result<System, NoMemory>
        requires pulls { All (IsPull shape.now) pulls }
        requires count { length pulls < 2 ^ 32 }
        ensures { IfOk result (λ system. system ≡ record { lens = shape.now; pulls = pulls }) }
    {
        let fans = fans_of(alloc, shape, &pulls)?;
        System::of_fans(alloc, shape, fans)
    }

    /// The system of the pulls of these fans, of which there are fewer than 2^32. They keep their
    /// order.
    pub fn of_fans(alloc: Global, shape: &Shape, fans: List<Fan>) -> Result<System, NoMemory>
        requires pulls { All (IsPull shape.now) (pulls_of_fans fans) }
        requires count { length (pulls_of_fans fans) < 2 ^ 32 }
        ensures { IfOk result
            (λ system. system ≡ record { lens = shape.now; pulls = pulls_of_fans fans }) }
    {
        let shape = shape.copy(alloc)?;
        let places = places_of(alloc, fans.as_slice())?;
        let by_source = sort_by_source(alloc, &shape, &fans, &places)?;
        let asks = all_asks(alloc, &shape, &fans)?;
        Ok(System {
            shape,
            fans,
            places,
            by_source,
            asks,
        })
    }

    /// The system with the pulls of these fans behind its own, fewer than 2^32 in all. Of what the
    /// processes ask, that of the fans' sources is raised, and the rest stays as it is.
    pub fn with_fans(self, alloc: Global, fans: List<Fan>) -> Result<System, NoMemory>
        requires pulls { All (IsPull self.lens) (pulls_of_fans fans) }
        requires count { length self.pulls + length (pulls_of_fans fans) < 2 ^ 32 }
        ensures { IfOk result (λ system. system
            ≡ record self { pulls = self.pulls ++ pulls_of_fans fans }) }
    {
        let System {
            shape,
            fans: own,
            mut places,
            mut by_source,
            mut asks,
        } = self;
        let known = own.len();
        let fans = joined(own, fans)?;
        learn_behind(
            alloc,
            &shape,
            fans.as_slice(),
            known,
            &mut places,
            &mut by_source,
            &mut asks,
        )?;
        Ok(System {
            shape,
            fans,
            places,
            by_source,
            asks,
        })
    }

    /// The system of the first so many of its pulls. What processes ask from which no other pull
    /// comes stays as it is.
    pub fn with_first_pulls(self, alloc: Global, count: u32) -> Result<System, NoMemory>
        ensures { IfOk result (λ system. system ≡ record self { pulls = take count self.pulls }) }
    {
        let System {
            shape,
            fans,
            places,
            mut by_source,
            mut asks,
        } = self;
        drop(places);
        let count = count as usize;
        let Some(stay) = fans_with(fans.as_slice(), count) else {
            return System::new(alloc, &shape, first_pulls(alloc, &fans, count)?);
        };
        forget_behind(
            alloc,
            &shape,
            fans.as_slice(),
            stay,
            &mut by_source,
            &mut asks,
        )?;
        let fans = first_of(fans, stay);
        let places = places_of(alloc, fans.as_slice())?;
        Ok(System {
            shape,
            fans,
            places,
            by_source,
            asks,
        })
    }

    /// The system of the same pulls on a longer shape. Of each table the first entries stay, one
    /// for each value up to the source's old length. Behind them come those that `more` has for its
    /// source and target, by rows of one entry per process.
    pub fn grown(self, alloc: Global, shape: &Shape, more: &[List<u32>]) -> Result<System, NoMemory>
        requires procs { length shape.now ≡ length self.lens }
        requires rows { length more.now ≡ length self.lens }
        requires pulls { All (IsPull shape.now) (grown_pulls self.lens more.now self.pulls) }
        ensures { IfOk result (λ system. system
            ≡ record { lens = shape.now; pulls = grown_pulls self.lens more.now self.pulls }) }
    {
        let shape = shape.copy(alloc)?;
        let System {
            shape: before,
            fans,
            places,
            by_source,
            asks,
        } = self;
        drop(asks);
        let fans = grown_fans(alloc, &before, fans, more)?;
        let asks = all_asks(alloc, &shape, &fans)?;
        Ok(System {
            shape,
            fans,
            places,
            by_source,
            asks,
        })
    }

    /// The entry `x` of the table of pull `k`; counts one step.
    pub fn pull<L: Ledger>(&self, k: u32, x: u64, steps: &mut Steps<L>) -> u64
        requires pull { k < length self.now.pulls }
        requires entry { x < length (pull_at self.now k).table }
        ensures entry { result ≡ ask self.now k x }
        ensures step { steps.new ≡ steps.old + 1 }
        ensures system { IsSystem self.now }
    {
        steps.tick();
        let place = self.places.get(k as usize);
        self.fans.get(place.fan).entry(place.index, x as usize) as u64
    }

    /// What the pulls from the process ask of each process where its component is `x`: the most
    /// that one of them asks for, and 0 where there is none. It stands for one look-up of each of
    /// them, and counts that many steps.
    pub fn asks<L: Ledger>(&self, process: u32, x: u64, steps: &mut Steps<L>) -> &[u16]
        requires process { process < length self.now.lens }
        requires entry { x ≤ slice_index self.now.lens process + 1 }
        ensures asks { AreAsks self.now process x result.now }
        ensures steps { let numbers = numbers_from self.now.pulls process (length self.now.pulls) in
            steps.new ≡ steps.old + length numbers }
        ensures system { IsSystem self.now }
    {
        count_looks(self.pulls_from(process).len(), steps);
        row_of(
            self.ask_rows(process),
            x as usize,
            self.shape.procs() as usize,
        )
    }

    /// The rows of asks of the process, one after the other.
    fn ask_rows(&self, process: u32) -> &[u16]
        requires { process < length self.now.lens }
        ensures { AreAskRows self.now process (slice_index self.now.lens process + 2) result.now }
    {
        match self.asks.get(process as usize) {
            AskRows::Own(rows) => rows.as_slice(),
            AskRows::OfFan(number) => self.fans.get(*number).rows(),
        }
    }

    /// The source and the target of pull `k`. It reads no table.
    pub fn ends(&self, k: u32) -> (u32, u32)
        requires { k < length self.now.pulls }
        ensures source { result.0 ≡ source_of self.now k }
        ensures target { result.1 ≡ target_of self.now k }
        ensures pull { IsPull self.now.lens (pull_at self.now k) }
        ensures system { IsSystem self.now }
    {
        let place = self.places.get(k as usize);
        let fan = self.fans.get(place.fan);
        (fan.source(), fan.targets()[place.index])
    }

    /// The number of pulls.
    pub fn pulls(&self) -> u32
        ensures count { result ≡ length self.now.pulls }
        ensures system { IsSystem self.now }
    {
        self.places.len() as u32
    }

    pub fn shape(&self) -> &Shape
        ensures shape { result.now ≡ self.now.lens }
        ensures system { IsSystem self.now }
    {
        &self.shape
    }

    /// The numbers of the pulls whose source is the process, in their order.
    pub fn pulls_from(&self, process: u32) -> &[u32]
        requires { process < length self.now.lens }
        ensures { result.now ≡ numbers_from self.now.pulls process (length self.now.pulls) }
    {
        self.by_source.get(process as usize).as_slice()
    }

    /// Whether the vector has one component per process, each at most one more than the process's
    /// length.
    pub fn fits(&self, vector: &[u64]) -> bool
        ensures { IsTrue result ↔ IsVector self.now.lens vector.now }
    {
        let lens = self.shape.lens();
        vector.len() == lens.len()
            && vector
                .iter()
                .zip(lens)
                .all(|(&component, &len)| component <= len as u64 + 1)
    }

    /// Whether each pull holds at the vector.
    pub fn is_closed<L: Ledger>(&self, vector: &[u64], steps: &mut Steps<L>) -> bool
        requires { IsVector self.now.lens vector.now }
        ensures closed { IsTrue result ↔ IsClosed self.now vector.now }
        ensures looks { steps.new ≤ steps.old + length self.now.pulls }
    {
        for k in 0..self.pulls() {
            if !self.holds(k, vector, steps) {
                return false;
            }
        }
        true
    }

    /// Whether pull `k` holds at the vector.
    fn holds<L: Ledger>(&self, k: u32, vector: &[u64], steps: &mut Steps<L>) -> bool
        requires pull { k < length self.now.pulls }
        requires vector { IsVector self.now.lens vector.now }
        ensures holds { IsTrue result ↔ HoldsPull self.now vector.now k }
        ensures step { steps.new ≡ steps.old + 1 }
    {
        let (source, target) = self.ends(k);
        self.pull(k, vector[source as usize], steps) <= vector[target as usize]
    }
}

/// A fan of each pull, in their order.
fn fans_of(alloc: Global, shape: &Shape, pulls: &List<Pull>) -> Result<List<Fan>, NoMemory>
    requires { All (IsPull shape.now) pulls.now }
    ensures { IfOk result (λ fans. pulls_of_fans fans ≡ pulls.now) }
{
    // By its clause the lengths are those of a shape.
    let _procs = shape.procs();
    let mut fans = List::with_capacity(alloc, pulls.len())?;
    for pull in pulls.as_slice() {
        fans.push(Fan::of_pull(alloc, pull)?)?;
    }
    Ok(fans)
}

/// Counts as many steps.
fn count_looks<L: Ledger>(looks: usize, counter: &mut Steps<L>)
    ensures { counter.new ≡ counter.old + looks }
{
    for _look in 0..looks {
        counter.tick();
    }
}
