// The refusals of every layer: one enum for each, and one that holds them all on the way up.
#![tactic(auto)]

ghost use Rattle.std.specs.Prelude.{◌≡◌, Some};
ghost use Rattle.refusal.specs.Refusals.{number, layer, layer_name, text};
ghost use Rattle.refusal.specs.declared.Refusal.{Refusal};
ghost use Rattle.refusal.specs.declared.Refusal.TheVariants.{Table, Take, Search, Memory, Transfer, Queue, File};

use std::fmt;

#[derive(Clone, Copy, PartialEq, Eq, Debug)]
pub enum TableFault {
    BadLength,
    StrayBits,
    Full,
    Clash,
    NoWord,
    NoPair,
}

#[derive(Clone, Copy, PartialEq, Eq, Debug)]
pub enum TakeFault {
    Full,
    OffScale,
}

#[derive(Clone, Copy, PartialEq, Eq, Debug)]
pub enum SearchFault {
    BadCount,
    Short,
    NoFit,
}

#[derive(Clone, Copy, PartialEq, Eq, Debug)]
pub enum MemoryFault {
    BadCount,
    Nothing,
}

#[derive(Clone, Copy, PartialEq, Eq, Debug)]
pub enum TransferFault {
    Full,
    NoWord,
    Short,
}

#[derive(Clone, Copy, PartialEq, Eq, Debug)]
pub enum QueueFault {
    Short,
}

#[derive(Clone, Copy, PartialEq, Eq, Debug)]
pub enum FileFault {
    BadForm,
    CutOff,
}

#[derive(Clone, Copy, PartialEq, Eq, Debug)]
pub enum Layer {
    Table,
    Take,
    Search,
    Memory,
    Transfer,
    Queue,
    File,
}

#[derive(Clone, Copy, PartialEq, Eq, Debug)]
pub enum Refusal {
    Table(TableFault),
    Take(TakeFault),
    Search(SearchFault),
    Memory(MemoryFault),
    Transfer(TransferFault),
    Queue(QueueFault),
    File(FileFault),
}

impl Refusal {
    // The number of the refusal. It tells the cases of one layer apart.
    pub fn number(&self) -> u8
        ensures value { result ≡ number self.now }
        ensures distinct { (other : Refusal) → number other ≡ result → layer other ≡ layer self.now → other ≡ self.now }
    {
        match *self {
            Refusal::File(FileFault::BadForm) => 1,
            Refusal::Table(TableFault::BadLength) => 2,
            Refusal::Table(TableFault::StrayBits) => 3,
            Refusal::Table(TableFault::Full) => 4,
            Refusal::Take(TakeFault::Full) => 4,
            Refusal::Transfer(TransferFault::Full) => 4,
            Refusal::Table(TableFault::Clash) => 5,
            Refusal::Table(TableFault::NoWord) => 6,
            Refusal::Transfer(TransferFault::NoWord) => 6,
            Refusal::Take(TakeFault::OffScale) => 7,
            Refusal::Search(SearchFault::BadCount) => 8,
            Refusal::Memory(MemoryFault::BadCount) => 8,
            Refusal::Search(SearchFault::Short) => 9,
            Refusal::Transfer(TransferFault::Short) => 9,
            Refusal::Queue(QueueFault::Short) => 9,
            Refusal::Search(SearchFault::NoFit) => 10,
            Refusal::Memory(MemoryFault::Nothing) => 11,
            Refusal::Table(TableFault::NoPair) => 12,
            Refusal::File(FileFault::CutOff) => 13,
        }
    }

    // The layer that refuses.
    pub fn layer(&self) -> Layer
        ensures value { result ≡ layer self.now }
    {
        match self {
            Refusal::Table(_) => Layer::Table,
            Refusal::Take(_) => Layer::Take,
            Refusal::Search(_) => Layer::Search,
            Refusal::Memory(_) => Layer::Memory,
            Refusal::Transfer(_) => Layer::Transfer,
            Refusal::Queue(_) => Layer::Queue,
            Refusal::File(_) => Layer::File,
        }
    }
}

// The conversions are written out: what the kit's derive of From writes promises nothing of its result.
impl From<TableFault> for Refusal {
    ghost from_gives = { λ f r. r ≡ Table f };

    fn from(f: TableFault) -> Refusal {
        Refusal::Table(f)
    }
}

impl From<TakeFault> for Refusal {
    ghost from_gives = { λ f r. r ≡ Take f };

    fn from(f: TakeFault) -> Refusal {
        Refusal::Take(f)
    }
}

impl From<SearchFault> for Refusal {
    ghost from_gives = { λ f r. r ≡ Search f };

    fn from(f: SearchFault) -> Refusal {
        Refusal::Search(f)
    }
}

impl From<MemoryFault> for Refusal {
    ghost from_gives = { λ f r. r ≡ Memory f };

    fn from(f: MemoryFault) -> Refusal {
        Refusal::Memory(f)
    }
}

impl From<TransferFault> for Refusal {
    ghost from_gives = { λ f r. r ≡ Transfer f };

    fn from(f: TransferFault) -> Refusal {
        Refusal::Transfer(f)
    }
}

impl From<QueueFault> for Refusal {
    ghost from_gives = { λ f r. r ≡ Queue f };

    fn from(f: QueueFault) -> Refusal {
        Refusal::Queue(f)
    }
}

impl From<FileFault> for Refusal {
    ghost from_gives = { λ f r. r ≡ File f };

    fn from(f: FileFault) -> Refusal {
        Refusal::File(f)
    }
}

// The name of a layer, in lower case.
impl fmt::Display for Layer {
    ghost output = { λ l. Some (layer_name l) };

    fn fmt<W: fmt::Write>(&self, f: &mut fmt::Formatter<W>) -> fmt::Result {
        f.write_str(match self {
            Layer::Table => "table",
            Layer::Take => "take",
            Layer::Search => "search",
            Layer::Memory => "memory",
            Layer::Transfer => "transfer",
            Layer::Queue => "queue",
            Layer::File => "file",
        })
    }
}

// The number and the layer, as in `5 table`.
impl fmt::Display for Refusal {
    ghost output = { λ r. Some (text r) };

    fn fmt<W: fmt::Write>(&self, f: &mut fmt::Formatter<W>) -> fmt::Result {
        let number = self.number();
        let layer = self.layer();
        write!(f, "{number} {layer}")
    }
}
