// The two maps of the worked example.
ghost use Rattle.std.specs.Prelude.{◌≡◌, [], map, slice_index_or};
ghost use Rattle.search.specs.Graphs.{Lawful};
ghost use Rattle.searchcheck.specs.Tables.{graph_at, lawful_prop};
ghost use Rattle.searchcheck.specs.Maps.{ties_graph, ties_lawful, apart_graph, apart_lawful};

use search::Map;

// Two paths of equal cost lead from 0 to 1, by 2 and by 3. Place 4 waits, and place 5 has no estimate.
static TIES_ESTIMATES: [Option<u32>; 6] = [Some(3), Some(0), Some(2), Some(1), Some(4), None];

static TIES_EDGES: [&[(usize, u32)]; 6] = [
    &[(2, 1), (3, 2)],
    &[],
    &[(1, 2), (4, 3)],
    &[(1, 1), (4, 1), (5, 1)],
    &[(1, 4)],
    &[],
];

// No path leads from 0 to 4.
static APART_ESTIMATES: [Option<u32>; 5] = [Some(1), Some(1), Some(0), Some(1), Some(0)];

static APART_EDGES: [&[(usize, u32)]; 5] = [&[(1, 2), (2, 5)], &[(2, 1)], &[], &[(4, 1)], &[]];

// A map that reads the estimate and the edges of each place from tables.
#[derive(Clone, Copy)]
pub struct TableMap {
    start: usize,
    finish: usize,
    estimates: &'static [Option<u32>],
    edges: &'static [&'static [(usize, u32)]],
    ghost lawful: { Lawful (graph_at start finish estimates.now (map (λ r. r.now) edges.now)) } by { lawful_prop (graph_at start finish estimates.now (map (λ r. r.now) edges.now)) },
}

impl TableMap {
    pub(crate) fn ties() -> TableMap
        ensures graph { graph_at result.start result.finish result.estimates.now (map (λ r. r.now) result.edges.now) ≡ ties_graph }
    {
        TableMap {
            start: 0,
            finish: 1,
            estimates: &TIES_ESTIMATES,
            edges: &TIES_EDGES,
        }
    }

    pub(crate) fn apart() -> TableMap
        ensures graph { graph_at result.start result.finish result.estimates.now (map (λ r. r.now) result.edges.now) ≡ apart_graph }
    {
        TableMap {
            start: 0,
            finish: 4,
            estimates: &APART_ESTIMATES,
            edges: &APART_EDGES,
        }
    }

    // The edges of a place: none from the size on.
    fn row(&self, place: usize) -> &[(usize, u32)]
        ensures edges { result.now ≡ slice_index_or (map (λ r. r.now) self.now.edges.now) place [] }
    {
        self.edges.get(place).copied().unwrap_or(&[])
    }
}

impl Map for TableMap {
    ghost graph = { λ m. graph_at m.start m.finish m.estimates.now (map (λ r. r.now) m.edges.now) };

    ghost lawful = { λ m. m.lawful };

    fn size(&self) -> usize {
        self.estimates.len()
    }

    fn start(&self) -> usize {
        self.start
    }

    fn finish(&self) -> usize {
        self.finish
    }

    fn estimate(&self, place: usize) -> Option<u32> {
        self.estimates.get(place).copied().flatten()
    }

    fn edge_count(&self, place: usize) -> usize {
        self.row(place).len()
    }

    fn edge(&self, place: usize, index: usize) -> Option<(usize, u32)> {
        self.row(place).get(index).copied()
    }
}
