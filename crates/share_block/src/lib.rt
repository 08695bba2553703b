// Steps 1, 2 and 4 of SA2 for all duties, block after block.
// `as` stands where std has no `From` (32 bits to usize, usize to u64), or where it is proved that nothing is lost (d).
#![tactic(auto)]

ghost use Rattle.std.specs.Prelude.{◌≡◌, ◌+◌, ◌<◌, ◌≤◌, length, replicate};
ghost use Rattle.laws.specs.Lists.{over};
ghost use Rattle.paper.specs.Limits.{most_duties};
ghost use Rattle.paper.specs.Sa2.{duty_count, allotments};
ghost use Rattle.share_laws.specs.Cut.{cut_at};
ghost use Rattle.share_common.specs.Common.{Shareable};
ghost use Rattle.share_block.specs.Paced.{pace, free_at, lack_at, short_at};

use paper::limits::MOST_DUTIES;
use share_common::Sharing;
use share_turn::{Amount, is_chosen, room_in_block, take_turn, wants_more};
use slices::share_of;
use std::marker::Model;

// Room for the duties' periods, shares (`rate` and `rest`) and needs (`whole` and `part`), whose whole units are raised by 1.
// Lists of numbers, not one of structs (b): the loop over the duties takes several at a time, and over structs takes twice as long.
#[derive(Drop)]
pub struct Lists {
    periods: [u32; MOST_DUTIES],
    rate: [u32; MOST_DUTIES],
    rest: [u32; MOST_DUTIES],
    whole: [u32; MOST_DUTIES],
    part: [u32; MOST_DUTIES],
}

impl Lists {
    // With nothing in them.
    pub fn new() -> Lists
        ensures periods { result.periods ≡ replicate most_duties 0 }
        ensures rate { result.rate ≡ replicate most_duties 0 }
        ensures rest { result.rest ≡ replicate most_duties 0 }
        ensures whole { result.whole ≡ replicate most_duties 0 }
        ensures part { result.part ≡ replicate most_duties 0 }
    {
        Lists {
            periods: [0; MOST_DUTIES],
            rate: [0; MOST_DUTIES],
            rest: [0; MOST_DUTIES],
            whole: [0; MOST_DUTIES],
            part: [0; MOST_DUTIES],
        }
    }
}

// How a block came out: its cut, and whether it comes short. No Option of a cut: `share_block` promises both in each case (a).
#[derive(Clone, Copy, Debug, PartialEq, Eq)]
pub struct Shared {
    pub cut: u32,
    pub short: bool,
}

// How the duties go on: whose blocks are shared out, the block that is next, the sum of the needs' whole units before it, and what the
// lists hold. The lists are lent, so that nothing is copied. The block's number is wider than 32 bits, so that any block of 32 can be
// shared out, the last one too.
#[derive(Drop)]
pub struct Paces<'a> {
    sharing: &'a Sharing<'a>,
    block: u64,
    total: u32,
    lists: &'a mut Lists,
}

impl<'a> Model for Paces<'a> {
    ghost use Rattle.share_block.specs.Paced.{Pace, pace, Paced};

    ghost Value = { Pace };

    ghost view = { λ a. pace a.sharing.now a.block };

    ghost invariant = { λ a. Paced a.sharing.now a.block a.total a.lists.now };
}

impl<'a> Paces<'a> {
    // Before the first block, where each need is the share itself.
    pub fn begin(sharing: &'a Sharing<'a>, lists: &'a mut Lists) -> Paces<'a>
        ensures paced { result ≡ pace sharing.now 0 }
        ensures shareable { Shareable sharing.now }
    {
        *lists = Lists::new();
        let ticks = sharing.ticks();
        let mut total = 0;
        for i in 0..sharing.duty_count() {
            let duty = sharing.duty(i);
            let share = share_of(ticks, duty);
            lists.periods[i] = duty.period;
            lists.rate[i] = share.units;
            lists.rest[i] = share.rest;
            lists.whole[i] = share.units + 1;
            lists.part[i] = share.rest;
            total += share.units + 1;
        }
        Paces {
            sharing,
            block: 0,
            total,
            lists,
        }
    }

    // The block that is next.
    pub fn block(&self) -> u64
        ensures { result ≡ self.now.block }
    {
        self.block
    }

    // How many duties there are.
    pub fn duty_count(&self) -> usize
        ensures { result ≡ duty_count self.now.sharing }
    {
        let sharing = self.sharing;
        sharing.duty_count()
    }

    // Step 2: the cut, before which the duties that want one of the free units are chosen. It is where so many have wanted one.
    fn find_cut(&self, free: u32) -> u32
        requires { free ≡ free_at self.now.sharing self.now.block }
        ensures { (result ≡ cut_at self.now.sharing self.now.block) × (result ≤ most_duties) }
    {
        let sharing = self.sharing;
        let ticks = sharing.ticks();
        let duties = sharing.duty_count();
        let lists = &*self.lists;
        let mut wanting = 0;
        for i in 0..duties {
            if free <= wanting {
                return i as u32;
            }
            let need = Amount {
                whole: lists.whole[i],
                part: lists.part[i],
            };
            wanting += u32::from(wants_more(ticks, need));
        }
        duties as u32
    }

    // The duties' turns in the next block, by its cut: what each duty gets goes to `units`, and the needs move on. The answer is whether
    // some duty would get -1 units.
    pub fn share_by_cut(&mut self, cut: u32, units: &mut [u32]) -> bool
        requires block_most { self.old.block ≤ u32.MAX }
        requires room { duty_count self.old.sharing ≤ length units.old }
        requires cut_value { cut ≡ cut_at self.old.sharing self.old.block }
        ensures next { self.new ≡ pace self.old.sharing (self.old.block + 1) }
        ensures lacking { result ≡ lack_at self.old.sharing self.old.block }
        ensures units_after { units.new ≡ over (allotments self.old.sharing self.old.block) units.old }
    {
        let sharing = self.sharing;
        let ticks = sharing.ticks();
        let lists = &mut *self.lists;
        let mut total = 0;
        let mut lacking = false;
        for i in 0..sharing.duty_count() {
            let share = Amount {
                whole: lists.rate[i],
                part: lists.rest[i],
            };
            let need = Amount {
                whole: lists.whole[i],
                part: lists.part[i],
            };
            let chosen = is_chosen(ticks, need, i as u32, cut);
            let turn = take_turn(lists.periods[i], share, need, chosen);
            units[i] = turn.units;
            lists.whole[i] = turn.need.whole;
            lists.part[i] = turn.need.part;
            total += turn.need.whole;
            lacking |= turn.lacking;
        }
        self.total = total;
        self.block += 1;
        lacking
    }

    // The next block: its free units, its cut, and the duties' turns. It is compiled where it is called, so that a pass whose units nobody
    // reads does not write them.
    #[inline(always)]
    pub fn share_block(&mut self, units: &mut [u32]) -> Shared
        requires block_most { self.old.block ≤ u32.MAX }
        requires room { duty_count self.old.sharing ≤ length units.old }
        ensures next { self.new ≡ pace self.old.sharing (self.old.block + 1) }
        ensures short_value { result.short ≡ short_at self.old.sharing self.old.block }
        ensures units_after { units.new ≡ over (allotments self.old.sharing self.old.block) units.old }
        ensures cut_value { (result.cut ≡ cut_at self.old.sharing self.old.block) × (result.cut ≤ most_duties) }
    {
        let sharing = self.sharing;
        let duties = sharing.duty_count() as u32;
        let room = room_in_block(sharing.ticks(), sharing.engines(), duties, self.total);
        let cut = self.find_cut(room.unwrap_or(0));
        let lacking = self.share_by_cut(cut, units);
        Shared {
            cut,
            short: lacking | room.is_none(),
        }
    }
}
