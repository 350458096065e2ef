//! What a configuration file says, one item after the other.

/// An entry of a section. `B` holds bytes.
#[derive(Debug, Clone, Copy, PartialEq, Eq, Drop)]
pub struct Entry<B> {
    /// The name, in lower case.
    pub name: B,
    /// The value; `None` where no equals sign follows the name, which is another thing than an empty value.
    pub value: Option<B>,
    /// The line on which the entry ends, from 1.
    pub line: usize,
}

/// An item of a file. `B` holds bytes.
#[derive(Debug, Clone, PartialEq, Eq, Drop)]
pub enum Item<B> {
    /// A section begins. The keys of its entries begin with these bytes: the section's name in lower case and a full stop, then the
    /// subsection, if there is one, and a full stop.
    Section(B),
    /// An entry of the last section. Before the first section, an entry has none.
    Sets(Entry<B>),
}
