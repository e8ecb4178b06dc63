//! The entries of a damaged image, while they are gathered.
ghost use Rattle.std.specs.Prelude.{◌≡◌, ◌<◌, ◌↔◌, ◌++◌, ◌∷◌, [], ℕ, Bool, List, None, length, IfOk, IsSome, IsTrue, OnOk};
ghost use Rattle.adf_block.specs.Image.{block_count};
ghost use Rattle.ados_salvage.specs.Known.{AreKnown};
ghost use Rattle.ados_salvage.specs.declared.salvaged.Salvaged.{Salvaged as Entry};
ghost use Rattle.ados_salvage.specs.Lost.{IsLost};
ghost use Rattle.ados_salvage.specs.steps.Finding.{AreOfOneTree};
ghost use Rattle.ados_salvage.specs.steps.Gathering.{AddsOne, AreGathered, AreGatheredBy, ArePlacesOf, GathersMore, IsNew, place_at};

use crate::giving::Giving;
use crate::header_entry::{entry_of, told_by_name};
use crate::known::{Known, name_of};
use crate::names::{Names, Standing};
use crate::salvaged::{Salvaged, State};
use crate::state::state_of;
use crate::unnamed::{name_of_lost, numbered_name};
use adf_block::Image;
use adf_block::layout::NEXT_IN_CHAIN;
use std::alloc::{AllocError, Global};

/// The entries found so far.
#[derive(Drop)]
pub(crate) struct Gathered {
    pub(crate) entries: Vec<Salvaged>,
    /// For each block, the index of its entry, if its header was found.
    pub(crate) places: Vec<Option<usize>>,
    /// The names in use.
    pub(crate) names: Names,
    /// The blocks given to broken files.
    pub(crate) giving: Giving,
}

impl Gathered {
    /// No entries of an image with these holes.
    pub(crate) fn new(alloc: Global, image: &Image, holes: &[bool]) -> Result<Gathered, AllocError>
        ensures { IfOk result (λ gathered. (out : List ℕ) (fillers : Bool) → AreGathered 0 out holes.now fillers image.now gathered) }
    {
        // A block has at most one entry. A list that grows would take twice the memory while it is copied.
        let entries = Vec::with_capacity(alloc, image.blocks() as usize)?;
        Gathered::behind(alloc, image, holes, entries)
    }

    /// The entries of a tree. Others are added behind them.
    pub(crate) fn behind(
        alloc: Global,
        image: &Image,
        holes: &[bool],
        entries: Vec<Salvaged>,
    ) -> Result<Gathered, AllocError>
        requires { AreOfOneTree image.now entries.items }
        ensures gathered { IfOk result (λ gathered. (out : List ℕ) (fillers : Bool) → AreGathered (length entries.items) out holes.now fillers image.now gathered) }
        ensures entries { IfOk result (λ gathered. gathered.entries.items ≡ entries.items) }
    {
        let places = places_of(alloc, image, &entries)?;
        let names = Names::new(alloc)?;
        let giving = Giving::new(alloc, image, holes)?;
        Ok(Gathered {
            entries,
            places,
            names,
            giving,
        })
    }

    /// Whether a block is a header that is told and was not found before.
    pub(crate) fn is_new(&self, known: &Known, block: u32) -> bool
        requires known { AreKnown known.now }
        ensures { IsTrue result ↔ IsNew known.now self.now.places.items block }
    {
        !self.has(block) && known.is_header(block)
    }

    /// Whether a block has an entry.
    pub(crate) fn has(&self, block: u32) -> bool
        ensures { IsTrue result ↔ IsSome (place_at self.now.places.items block) }
    {
        (block as usize) < self.places.len() && self.places[block as usize].is_some()
    }

    /// The position of the entry of a directory, if its header was found.
    pub(crate) fn directory(&self, block: u32) -> Option<usize> {
        let place = (*self.places.get(block as usize)?)?;
        match self.entries.get(place)?.state {
            State::Directory | State::DoubtfulDirectory => Some(place),
            _ => None,
        }
    }

    /// Adds the entry of a header.
    pub(crate) fn add(
        &mut self,
        known: &Known,
        block: u32,
        standing: Standing,
    ) -> Result<(), AllocError>
        requires gathered { AreGatheredBy known.now self.old }
        requires met { IsNew known.now self.old.places.items block }
        ensures more { OnOk result (GathersMore known.now self.old self.new) }
        ensures met { OnOk result (IsSome (place_at self.new.places.items block)) }
        ensures added { OnOk result (AddsOne known.now standing.found self.old self.new) }
    {
        let image = &known.image;
        let Some(name) = name_of(image, block) else {
            unreachable!()
        };
        let place = self.entries.len();
        let state = state_of(known, block, place, &mut self.giving)?;
        let endings = self.names.take(known.alloc, standing, name.bytes(), block)?;
        let entry = entry_of(image, block, standing, endings, state);
        self.entries.push(entry)?;
        self.places[block as usize] = Some(place);
        Ok(())
    }

    /// Where an entry is that a long of a block names: a slot, or the one for the next entry in its hash chain.
    pub(crate) fn standing_at(&self, block: u32, at: u32) -> Standing {
        let above = self.directory(block);
        let place = self.places.get(block as usize).copied().flatten();
        match place.and_then(|place| self.entries.get(place)) {
            Some(entry) if at == NEXT_IN_CHAIN => Standing {
                above: entry.above,
                found: entry.found,
            },
            Some(entry) => Standing {
                above,
                found: entry.found && above.is_some(),
            },
            None => Standing {
                above: None,
                found: false,
            },
        }
    }

    /// Adds a lost entry.
    pub(crate) fn add_lost(
        &mut self,
        known: &Known,
        block: u32,
        standing: Standing,
    ) -> Result<(), AllocError>
        requires gathered { AreGatheredBy known.now self.old }
        requires free { place_at self.old.places.items block ≡ None }
        requires lost { IsLost known.now.left_out known.now.image block }
        ensures more { OnOk result (GathersMore known.now self.old self.new) }
        ensures met { OnOk result (IsSome (place_at self.new.places.items block)) }
    {
        let place = self.entries.len();
        let name = name_of_lost(known.alloc, &known.image, block)?;
        let endings = self.names.take(known.alloc, standing, name.bytes(), block)?;
        let entry = told_by_name(block, standing, endings, name, State::Lost);
        self.entries.push(entry)?;
        self.places[block as usize] = Some(place);
        Ok(())
    }

    /// Adds the entry of a file without a header, as a recovered one. Its header needs no place.
    pub(crate) fn add_loose(
        &mut self,
        alloc: Global,
        header: u32,
        state: State,
    ) -> Result<(), AllocError>
        ensures entries { OnOk result ((entry : Entry) × (entry.header ≡ header) × (entry.state ≡ state) × (self.new.entries.items ≡ self.old.entries.items ++ entry ∷ [])) }
        ensures places { self.new.places ≡ self.old.places }
        ensures giving { self.new.giving ≡ self.old.giving }
    {
        let standing = Standing {
            above: None,
            found: true,
        };
        let name = numbered_name(alloc, header)?;
        let endings = self.names.take(alloc, standing, name.bytes(), header)?;
        let entry = told_by_name(header, standing, endings, name, state);
        self.entries.push(entry)?;
        Ok(())
    }
}

/// For each block, the index of the entry of which it is the header.
fn places_of(
    alloc: Global,
    image: &Image,
    entries: &[Salvaged],
) -> Result<Vec<Option<usize>>, AllocError>
    requires { AreOfOneTree image.now entries.now }
    ensures { IfOk result (λ places. ArePlacesOf image.now entries.now places.items) }
{
    let mut places = no_places(alloc, image)?;
    for place in 0..entries.len() {
        places[entries[place].header as usize] = Some(place);
    }
    Ok(places)
}

/// No block has an entry.
fn no_places(alloc: Global, image: &Image) -> Result<Vec<Option<usize>>, AllocError>
    ensures count { IfOk result (λ places. length places.items ≡ block_count image.now) }
    ensures none { IfOk result (λ places. (block : ℕ) → place_at places.items block ≡ None) }
{
    let places = vec![in alloc; None; image.blocks() as usize]?;
    Ok(places)
}
