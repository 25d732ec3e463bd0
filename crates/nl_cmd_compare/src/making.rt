//! Two new volumes for a comparison.
ghost use Rattle.std.specs.Prelude.{◌≡◌, [], IfOk, IsTrue};
ghost use Rattle.nl_cmd_compare.specs.Both.{HasAnswered, IsComparison, IsNewMap};
ghost use Rattle.nl_field.specs.Numbers.{is_legal, shape_for};

use crate::comparison::{Comparison, Numbers};
use nl_field::{Memory, shape_of};
use nl_iface::Counts;
use nl_nand::{FormAnswer, Nand};
use nl_pagemap::Pagemap;
use nl_pagemap_volume::MapVolume;
use nl_spec_image::laws::represents_one;
use nl_tree::ReplyBuf;
use nl_turns::Kept;
use nl_volume::{Made, Volume, open};
use std::alloc::Global;

impl<M: Nand + Drop> Comparison<M> {
    /// A new volume of these numbers on each medium. Whatever they held is gone. Nothing comes of it for want of memory, or where one of
    /// them failed.
    pub fn make(
        alloc: Global,
        media: M,
        other: M,
        blocks: u32,
        pages: u32,
    ) -> Result<Comparison<M>, Memory>
        requires legal { IsTrue (is_legal blocks pages) }
        ensures { IfOk result (IsComparison ⟦<Volume<M> as Kept>⟧.stands ⟦<Pagemap<M> as Counts>⟧ M.tells (shape_for blocks pages) []) }
    {
        let out = ReplyBuf::new(alloc)?;
        let bytes = ReplyBuf::new(alloc)?;
        let map = map_volume(alloc, other, blocks, pages)?;
        match new_volume(alloc, media, blocks, pages) {
            Ok(volume) => Ok(Comparison {
                volume,
                map,
                out,
                other: bytes,
                numbers: Numbers {
                    calls: 0,
                    pairs: 0,
                    entries: 0,
                },
            }),
            Err(Memory) => {
                drop(map.into_media());
                Err(Memory)
            }
        }
    }
}

/// A new volume of these numbers on a medium, whose device moves pages, that was asked nothing so far.
pub fn new_volume<M: Nand + Drop>(
    alloc: Global,
    media: M,
    blocks: u32,
    pages: u32,
) -> Result<Volume<M>, Memory>
    requires legal { IsTrue (is_legal blocks pages) }
    ensures { IfOk result (HasAnswered ⟦<Volume<M> as Kept>⟧.stands M.tells (shape_for blocks pages) []) }
{
    represents_one();
    match Volume::make(alloc, media, blocks, pages) {
        Made::Done(media) => match open(alloc, media) {
            Ok(volume) => Ok(volume),
            Err(why) => {
                drop(why);
                Err(Memory)
            }
        },
        other => {
            drop(other);
            Err(Memory)
        }
    }
}

// A new volume whose device leads numbers to pages by a map.
fn map_volume<M: Nand + Drop>(
    alloc: Global,
    media: M,
    blocks: u32,
    pages: u32,
) -> Result<MapVolume<M>, Memory>
    requires legal { IsTrue (is_legal blocks pages) }
    ensures { IfOk result (IsNewMap ⟦<Pagemap<M> as Counts>⟧ (shape_for blocks pages)) }
{
    let Some(shape) = shape_of(blocks, pages) else {
        drop(media);
        return Err(Memory);
    };
    let mut media = media;
    match media.form(blocks, pages) {
        FormAnswer::Done if media.write_faults() < u64::MAX => {}
        _ => {
            drop(media);
            return Err(Memory);
        }
    }
    match MapVolume::make(alloc, media, shape) {
        Ok(map) => Ok(map),
        Err(media) => {
            drop(media);
            Err(Memory)
        }
    }
}
