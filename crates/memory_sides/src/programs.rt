//! Programs in memory, and a starter of them.
ghost use Rattle.std.specs.Prelude.{◌≡◌, map, IfOk};
ghost use Rattle.memory_sides.specs.Settings.{link_of, says, setting_of, spawner_of};

use crate::settings::MemSetting;
use io_edge::{MemLink, MemSpawner};
use std::alloc::{AllocError, Global};

/// Links with these settings, in order.
pub fn links_of(alloc: Global, settings: &[MemSetting<'_>]) -> Result<Vec<MemLink>, AllocError>
    ensures { IfOk result (λ links. links.items
        ≡ map (λ one. link_of (setting_of one)) settings.now) }
{
    let mut links = Vec::new(alloc);
    for setting in settings {
        links.push(setting.link(alloc)?)?;
    }
    Ok(links)
}

/// Links that will say these texts, in order, in pieces of any size. No call of them fails.
pub fn links_saying(alloc: Global, texts: &[&[u8]]) -> Result<Vec<MemLink>, AllocError>
    ensures { IfOk result (λ links. links.items
        ≡ map (λ text. link_of (says text.now)) texts.now) }
{
    let mut links = Vec::new(alloc);
    for text in texts {
        links.push(MemSetting::of(text).link(alloc)?)?;
    }
    Ok(links)
}

/// A starter that hands out these links in turn. The start of this number fails (0: none fails).
pub fn spawner_of(
    alloc: Global,
    links: Vec<MemLink>,
    failing_start: u64,
) -> Result<MemSpawner, AllocError>
    ensures { IfOk result (λ spawner. spawner ≡ spawner_of links.items failing_start) }
{
    let fails = Vec::from_slice(alloc, &[failing_start])?;
    Ok(MemSpawner::new(alloc, links, fails))
}
