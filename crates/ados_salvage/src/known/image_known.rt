//! An image, and what is known of its blocks before its entries are gathered.
ghost use Rattle.std.specs.Prelude.{◌≡◌, ◌<◌, ◌↔◌, false, true, All, IfOk, IsTrue, MatchBool};
ghost use Rattle.adf_block.specs.Image.{block_count};
ghost use Rattle.ados_salvage.specs.Deleted.{AreDeleted, IsTrustedBitmap, TellsTrust};
ghost use Rattle.ados_salvage.specs.Doubtful.{IsHeader, NamesEntries};
ghost use Rattle.ados_salvage.specs.Found.{AreHidden};
ghost use Rattle.ados_salvage.specs.Known.{AreKnown};
ghost use Rattle.ados_salvage.specs.steps.Heading.{AreSound};

use crate::known::claims::{Claim, claims};
use crate::known::header::{is_root, sound_headers};
use crate::known::headers::headers;
use crate::known::left_out::{LeftOut, left_out_of};
use crate::known::lost::hidden_headers;
use crate::known::numbered::{Part, numbered_blocks};
use crate::known::unreached::reached_claims;
use adf_block::Image;
use std::alloc::{AllocError, Global};

/// An image, and what is known of its blocks.
#[derive(Drop)]
pub struct Known {
    pub alloc: Global,
    pub image: Image,
    /// Whether the bitmap of the image is trusted.
    pub trusted: bool,
    /// The headers that are left out.
    pub left_out: LeftOut,
    /// The number of entries that are told before: those of the tree of an accepted image.
    pub before: usize,
    /// For each block, whether it is a hole: nobody read it. A block without a mark is none.
    pub holes: Vec<bool>,
    /// Whether a known filler in a data block counts against its file.
    pub fillers: bool,
    /// The OFS data blocks with right checksums, by header, number and block.
    pub(crate) numbered: Vec<Part>,
    /// For each block, whether it is a header that is told, sound or doubtful.
    pub(crate) headers: Vec<bool>,
    /// For each block, the sound files that claim it.
    pub(crate) claims: Vec<Claim>,
    /// The same, where files to which the root does not lead claim none.
    pub(crate) reached_claims: Vec<Claim>,
}

impl Known {
    /// What is known of the blocks of an image with these holes, where its deleted entries are left out, and fillers count.
    ///
    /// Time and memory grow about linearly with the size of the image.
    pub fn without_deleted(
        alloc: Global,
        image: Image,
        holes: Vec<bool>,
    ) -> Result<Known, AllocError>
        ensures known { IfOk result AreKnown }
        ensures image { IfOk result (λ known. known.image ≡ image) }
        ensures holes { IfOk result (λ known. known.holes ≡ holes) }
        ensures fillers { IfOk result (λ known. known.fillers ≡ true) }
        ensures left_out { IfOk result (λ known. AreDeleted image known.left_out) }
        ensures none { IfOk result (λ known. known.before ≡ 0) }
    {
        let sound = sound_headers(alloc, &image)?;
        let (left_out, trusted) = left_out_of(alloc, &image, &sound)?;
        let mut known = Known::of(alloc, image, holes, trusted, left_out, &sound)?;
        known.fillers = true;
        Ok(known)
    }

    /// What is known of the blocks of an image with a trusted bitmap and these holes, where fillers count or not, and only its
    /// entries, of which so many are told before, and the sound headers among its lost blocks are told.
    pub fn with_lost(
        alloc: Global,
        image: Image,
        holes: Vec<bool>,
        fillers: bool,
        before: usize,
    ) -> Result<Known, AllocError>
        requires trusted { IsTrustedBitmap image }
        ensures known { IfOk result AreKnown }
        ensures image { IfOk result (λ known. known.image ≡ image) }
        ensures holes { IfOk result (λ known. known.holes ≡ holes) }
        ensures fillers { IfOk result (λ known. known.fillers ≡ fillers) }
        ensures hidden { IfOk result (λ known. AreHidden image known.left_out) }
        ensures before { IfOk result (λ known. known.before ≡ before) }
    {
        let sound = sound_headers(alloc, &image)?;
        let hidden = hidden_headers(alloc, &image, &sound)?;
        let mut known = Known::of(alloc, image, holes, true, hidden, &sound)?;
        known.fillers = fillers;
        known.before = before;
        Ok(known)
    }

    /// What is known of the blocks of an image with these holes, where some headers are left out, and fillers do not count. `sound`
    /// marks the sound headers.
    pub(crate) fn of(
        alloc: Global,
        image: Image,
        holes: Vec<bool>,
        trusted: bool,
        left_out: LeftOut,
        sound: &[bool],
    ) -> Result<Known, AllocError>
        requires trust { TellsTrust image trusted }
        requires sound { AreSound image sound.now }
        requires inside { All (λ header. header < block_count image) left_out }
        ensures known { IfOk result AreKnown }
        ensures image { IfOk result (λ known. known.image ≡ image) }
        ensures holes { IfOk result (λ known. known.holes ≡ holes) }
        ensures fillers { IfOk result (λ known. known.fillers ≡ false) }
        ensures left_out { IfOk result (λ known. known.left_out ≡ left_out) }
        ensures none { IfOk result (λ known. known.before ≡ 0) }
    {
        let claims = claims(alloc, &image, &left_out, sound)?;
        let reached_claims = reached_claims(alloc, &image, &left_out, sound)?;
        let headers = headers(alloc, &image, &left_out, sound)?;
        let numbered = numbered_blocks(alloc, &image)?;
        Ok(Known {
            alloc,
            image,
            trusted,
            left_out,
            before: 0,
            holes,
            fillers: false,
            numbered,
            headers,
            claims,
            reached_claims,
        })
    }

    /// Whether a block is a header that is told.
    pub fn is_header(&self, block: u32) -> bool
        requires { AreKnown self.now }
        ensures { MatchBool result (IsHeader self.now.left_out self.now.image block) (¬ IsHeader self.now.left_out self.now.image block) }
    {
        block < self.image.blocks() && self.headers[block as usize]
    }

    /// Whether a block can name entries: it is the root or a header that is told.
    pub fn names_entries(&self, block: u32) -> bool
        requires inside { block < block_count self.now.image }
        requires known { AreKnown self.now }
        ensures { IsTrue result ↔ NamesEntries self.now.left_out self.now.image block }
    {
        self.is_header(block) || is_root(&self.image, block)
    }
}
