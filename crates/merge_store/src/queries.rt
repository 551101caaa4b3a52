//! Queries, over running sums.
ghost use Rattle.std.specs.Prelude.{◌≡◌, ◌-◌, ◌≤◌, take, drop, slice_get, option_map, option_to_list, ◌++◌, map, IfOk, OnOk};
ghost use Rattle.std.specs.Arc.{arc_value};
ghost use Rattle.cov_history.specs.History.{design_of, tests_of};
ghost use Rattle.store_parts.specs.Keeps.{rows_of};
ghost use Rattle.store_parts.specs.Words.{test_of};
ghost use Rattle.cov_history.specs.Answers.{hello_at, counts_at, test_counts_at, illegal_at, name_at, fetch_at, test_row, tests_at, rank_at};
ghost use Rattle.store_parts.specs.Told.{Reads, rows_read, illegal_read, name_read, chunk_read, tests_read, rank_read};
ghost use Rattle.merge_store.specs.Stores.{opening_of, entries_of};

use crate::{QueryFault, Store};
use cov_base::Memory;
use cov_ground::limits::{LONGEST_CHUNK, MOST_TEST_ROWS};
use cov_tree::{List, Name};
use rank_report::rank;
use sampler::EncodedRecord;
use std::sync::Arc;
use std::thread::Threads;
use store_parts::Kept;
use store_sums::part_of;
use tally::{Ranked, Tally};
use ucis_model::{Answer, CountRow, HistoryKind, HistoryNode};

impl Store {
    /// The counts of the bins under the node that the path finds: how many they are, and at most 65,536 of them from
    /// the first-th on.
    pub fn counts(&self, first: u32, path: &[u8]) -> Result<(u32, List<CountRow>), QueryFault>
        ensures { Reads (counts_at (opening_of self.now) (entries_of self.now) first path.now)
            (rows_read result) }
    {
        let Some(node) = self.sums.find(path) else {
            return Err(QueryFault::NoSuchPath);
        };
        match self.sums.rows(self.sums.bins_under(node), first) {
            Ok(rows) => Ok(rows),
            Err(Memory) => Err(QueryFault::Memory),
        }
    }

    /// The illegal bins that were hit: how many they are, and at most 65,536 of them from the first-th on.
    pub fn illegal(&self, first: u32) -> Result<(u32, List<CountRow>), Memory>
        ensures { Reads (illegal_at (opening_of self.now) (entries_of self.now) first)
            (illegal_read result) }
    {
        let bins = self.sums.illegal_bins()?;
        let rows = self.sums.rows(bins.as_slice(), first)?;
        Ok(rows)
    }

    /// The path of the bin of this number.
    pub fn name_of(&self, bin: u32) -> Result<Name, QueryFault>
        ensures { Reads (name_at (opening_of self.now) (entries_of self.now) bin)
            (name_read result) }
    {
        let Some(node) = self.sums.bin(bin) else {
            return Err(QueryFault::NoSuchPath);
        };
        match self.sums.path_text(node) {
            Ok(path) => Ok(path),
            Err(Memory) => Err(QueryFault::Memory),
        }
    }

    /// What the test of an id counts of the bins under the node that the path finds: how many bins they are, and at most
    /// 65,536 of them from the first-th on.
    pub fn test_counts(
        &self,
        first: u32,
        id: &[u8],
        path: &[u8],
    ) -> Result<(u32, List<CountRow>), QueryFault>
        ensures { Reads
            (test_counts_at (opening_of self.now) (entries_of self.now) first id.now path.now)
            (rows_read result) }
    {
        let Some(test) = self.kept(id) else {
            return Err(QueryFault::NoSuchTest);
        };
        let Some(node) = self.sums.find(path) else {
            return Err(QueryFault::NoSuchPath);
        };
        match self
            .sums
            .test_rows(&test.tally, self.sums.bins_under(node), first)
        {
            Ok(rows) => Ok(rows),
            Err(Memory) => Err(QueryFault::Memory),
        }
    }

    fn test_row(&self, test: &Kept) -> Result<HistoryNode, Memory>
        ensures { IfOk result (λ row. row ≡ test_row (test_of test.now)) }
    {
        let content: &EncodedRecord = &test.rec;
        Ok(HistoryNode {
            kind: HistoryKind::Test,
            point: test.point,
            status: content.status(),
            seed: content.seed(),
            time: content.time(),
            digest: content.digest(),
            id: content.id().share()?,
            user: content.user().share()?,
        })
    }

    /// One row more, of the test at a place.
    fn push_test(&self, list: &mut Vec<HistoryNode>, place: usize) -> Result<(), Memory>
        ensures { OnOk result (list.new.items ≡ list.old.items ++ option_to_list (option_map test_row (slice_get (tests_of (entries_of self.now)) place))) }
    {
        if let Some(test) = self.test(place) {
            list.push(self.test_row(test)?)?;
        }
        Ok(())
    }

    fn tests_between(&self, from: usize, end: usize) -> Result<Vec<HistoryNode>, Memory>
        requires { from ≤ end }
        ensures { IfOk result (λ list. list.items ≡ map test_row (take (end - from) (drop from (tests_of (entries_of self.now))))) }
    {
        let mut list = Vec::new(self.alloc);
        for place in from..end {
            self.push_test(&mut list, place)?;
        }
        Ok(list)
    }

    /// The tests in order of admission: how many they are, and at most 1,024 of them from the first-th on.
    pub fn tests(&self, first: u32) -> Result<(u32, List<HistoryNode>), Memory>
        ensures { Reads (tests_at (entries_of self.now) first) (tests_read result) }
    {
        let from = first as usize;
        let rows = self.tests_between(from, from + MOST_TEST_ROWS)?;
        Ok((self.test_count() as u32, List::of(rows)))
    }

    /// The tallies of all tests in order.
    fn tallies(&self) -> Result<Vec<Arc<Tally>>, Memory>
        ensures { IfOk result (λ list. map arc_value list.items ≡ map (rows_of (design_of (opening_of self.now) (entries_of self.now))) (tests_of (entries_of self.now))) }
    {
        let mut list = Vec::new(self.alloc);
        for place in 0..self.test_count() {
            self.push_tally(&mut list, place)?;
        }
        Ok(list)
    }

    /// One tally more, of the test at a place.
    fn push_tally(&self, list: &mut Vec<Arc<Tally>>, place: usize) -> Result<(), Memory>
        ensures { OnOk result (map arc_value list.new.items ≡ map arc_value list.old.items ++ option_to_list (option_map (rows_of (design_of (opening_of self.now) (entries_of self.now))) (slice_get (tests_of (entries_of self.now)) place))) }
    {
        if let Some(test) = self.test(place) {
            list.push(test.tally.clone()?)?;
        }
        Ok(())
    }

    /// The greedy ranking of the tests by the live bins that they cover: each test that adds to those taken before it,
    /// with how many wanted hits it adds. The work is shared among the processors.
    pub fn rank<R: Threads + Sync>(&self, rt: &R) -> Result<List<Ranked>, Memory>
        ensures { Reads (rank_at (opening_of self.now) (entries_of self.now)) (rank_read result) }
    {
        let tallies = self.tallies()?;
        let wanted = self.sums.wanted()?;
        let rows = rank(rt, self.alloc, tallies.as_slice(), wanted.as_slice())?;
        Ok(rows)
    }

    /// Some of the bytes of the record that was admitted at this place, from 0: how many they are, and at most 1,048,576
    /// of them from the offset on.
    pub fn fetch(&self, place: u32, offset: u64) -> Result<(u64, Name), QueryFault>
        ensures { Reads (fetch_at (entries_of self.now) place offset) (chunk_read result) }
    {
        let Some(test) = self.test(place as usize) else {
            return Err(QueryFault::NoSuchTest);
        };
        let bytes = test.rec.bytes();
        match Name::of(self.alloc, part_of(bytes, offset as usize, LONGEST_CHUNK)) {
            Ok(part) => Ok((bytes.len() as u64, part)),
            Err(_) => Err(QueryFault::Memory),
        }
    }

    /// How many bins there are, where the history has come to the point. It takes no memory.
    pub(crate) fn hello(&self, point: u64) -> Answer
        ensures { result ≡ hello_at (opening_of self.now) (entries_of self.now) point }
    {
        let have = self.point();
        if have < point {
            return Answer::Ahead { have };
        }
        Answer::Welcome {
            bins: self.design().bin_count(),
        }
    }
}
