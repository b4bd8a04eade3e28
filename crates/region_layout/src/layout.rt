ghost use Rattle.std.specs.Prelude.{◌≡◌, ◌+◌, ◌*◌, ◌<◌, ◌≤◌, ◌==◌, ◌||◌, IsTrue};
ghost use Rattle.persist_model.specs.Shape.{IsBucketCount, IsBlockCount, IsStructureCount};

/// Whether a commit waits for its words to be kept, or leaves them to a checkpoint.
#[derive(Clone, Copy, Debug, PartialEq, Eq)]
pub enum Policy {
    Force,
    NoForce,
}

/// How many keys a map of cells can have.
pub const CELL_KEYS: u32 = 12;

/// What a structure is.
#[derive(Clone, Copy, Debug, PartialEq, Eq)]
pub enum Kind {
    /// Keys below `CELL_KEYS`, one data word each.
    Cells,
    /// Keys of 64 bits in order, in a tree of blocks.
    Tree,
    /// Keys of 64 bits, in chains of blocks.
    Hash,
}

/// The policy and the sizes of a region.
#[derive(Clone, Copy, Debug, PartialEq, Eq)]
pub struct Layout {
    pub policy: Policy,
    /// Cells of a bucket: 1 or 16.
    pub cells: u32,
    pub buckets: u32,
    /// Blocks of the heap, 16 words each.
    pub blocks: u32,
    pub structures: u32,
    /// Format 2 says in its header what each structure is, and how many partitions the log has.
    pub format: u32,
    pub partitions: u32,
    pub ghost cells_are: { IsTrue ((cells == 1) || (cells == 16)) },
    pub ghost buckets_within: { IsBucketCount buckets },
    pub ghost blocks_within: { IsBlockCount blocks },
    pub ghost structures_within: { IsStructureCount structures },
    pub ghost format_within: { (1 ≤ format) × (format ≤ 2) },
    pub ghost partitions_within: { (1 ≤ partitions) × (partitions ≤ 3) },
    pub ghost whole: { format ≡ 1 → partitions ≡ 1 },
    pub ghost split: { 4 * partitions ≤ buckets },
}

/// A row of buckets, by the number of the first.
#[derive(Clone, Copy, Debug, PartialEq, Eq)]
pub struct Buckets {
    pub first: u32,
    pub count: u32,
}

impl Layout {
    ghost use Rattle.std.specs.Prelude.{◌↔◌};
    ghost use Rattle.persist_model.specs.Shape.{bucket_size, bucket, heap, block, words_of_shape, IsHeapWord};
    ghost use Rattle.region_layout.specs.Layout.{layout_shape, block_number, IsDataWord, IsPartition};
    ghost use Rattle.region_layout.specs.Apart.{IsWordOfBlock};

    /// How many words the region has.
    pub fn size(&self) -> u32
        ensures { result ≡ words_of_shape (layout_shape self.now) }
    {
        self.heap() + 16 * self.blocks
    }

    /// The address of the bucket with this number, which is that of its NEXT.
    pub fn bucket(&self, j: u32) -> u32
        requires { j < self.now.buckets }
        ensures { result ≡ bucket (layout_shape self.now) j }
    {
        32 + j * self.bucket_size()
    }

    /// The address of the first block.
    pub fn heap(&self) -> u32
        ensures { result ≡ heap (layout_shape self.now) }
    {
        32 + self.buckets * self.bucket_size()
    }

    /// The address of the block with this number, which is that of its owner.
    pub fn block(&self, k: u32) -> u32
        requires { k < self.now.blocks }
        ensures { result ≡ block (layout_shape self.now) k }
    {
        self.heap() + 16 * k
    }

    /// The number of the block that has this heap word.
    pub fn block_of(&self, a: u32) -> u32
        requires { IsHeapWord (layout_shape self.now) a }
        ensures number { result ≡ block_number (layout_shape self.now) a }
        ensures has { IsWordOfBlock (layout_shape self.now) result a }
    {
        (a - self.heap()) / 16
    }

    /// Whether this is a heap word that isn't the owner of a block.
    pub fn is_data(&self, a: u32) -> bool
        ensures { IsTrue result ↔ IsDataWord (layout_shape self.now) a }
    {
        let heap = self.heap();
        heap <= a && a < self.size() && (a - heap) % 16 != 0
    }

    /// The buckets of a partition of the log.
    pub fn part(&self, p: u32) -> Buckets
        requires { p < self.now.partitions }
        ensures { IsPartition (layout_shape self.now) p result }
    {
        let each = self.buckets / self.partitions;
        let first = p * each;
        let last = p + 1 == self.partitions;
        Buckets {
            first,
            count: if last { self.buckets - first } else { each },
        }
    }

    /// How many words a bucket has.
    fn bucket_size(&self) -> u32
        ensures is { result ≡ bucket_size (layout_shape self.now) }
        ensures small { result ≤ 136 }
    {
        8 + 8 * self.cells
    }
}
