//! What words ask for.

use input_names::{Import, Inputs};

/// What `convert` asks for.
#[derive(Clone, Copy, Debug, PartialEq, Eq)]
pub struct Converting<'a> {
    /// The name of the schema file.
    pub schema: &'a str,
    /// The base of the schema, by default `http://localhost/`.
    pub schema_base: &'a str,
}

/// What `extents` asks for.
#[derive(Debug, Drop, PartialEq, Eq)]
pub struct Listing<'a> {
    /// The schema and the data.
    pub inputs: Inputs<'a>,
    /// The greatest width of a pair that is looked into, from 1 to 1,099,511,627,776 and by default 1,048,576.
    pub budget: u64,
}

/// What `explain` asks for.
#[derive(Debug, Drop, PartialEq, Eq)]
pub struct Explaining<'a> {
    /// The schema and the data.
    pub inputs: Inputs<'a>,
    /// The name of the file with the map.
    pub map: &'a str,
    /// The greatest width of a pair that is looked into, from 1 to 1,099,511,627,776 and by default 1,048,576.
    pub budget: u64,
    /// How much is printed under one line, from 1 to 1,099,511,627,776 and by default 20.
    pub limit: u64,
    /// Whether it is printed as JSON.
    pub json: bool,
}

/// What `lines` asks for.
#[derive(Clone, Copy, Debug, PartialEq, Eq)]
pub struct Lining<'a> {
    /// The name of the data file.
    pub data: &'a str,
    /// What goes before the printed name of each blank node, if labels are not kept as they are: letters, digits and `_`, no digit first.
    pub prefix: Option<&'a str>,
    /// The base of the data, by default `http://localhost/`.
    pub data_base: &'a str,
}

/// What `followed` asks for.
#[derive(Debug, Drop, PartialEq, Eq)]
pub struct Following<'a> {
    /// The name of the schema file.
    pub schema: &'a str,
    /// The base of the schema, by default `http://localhost/`.
    pub schema_base: &'a str,
    /// The files for imported documents, in the order of the words, each IRI once.
    pub imports: Vec<Import<'a>>,
}

/// What `reached` asks for.
#[derive(Debug, Drop, PartialEq, Eq)]
pub struct Reaching<'a> {
    /// The schema and the data.
    pub inputs: Inputs<'a>,
    /// The name of the file with the map.
    pub map: &'a str,
}

/// The files of a shard.
#[derive(Clone, Copy, Debug, PartialEq, Eq)]
pub struct ShardFiles<'a> {
    /// The name of the file with the nodes at which the shard is to have what is read.
    pub nodes: &'a str,
    /// The name of the file with the shard's lines.
    pub shard: &'a str,
}

/// What `covers` asks for.
#[derive(Debug, Drop, PartialEq, Eq)]
pub struct Covering<'a> {
    /// The name of the file with the ways that a schema reads.
    pub followed: &'a str,
    /// The name of the file with the lines of a part of the data.
    pub part: &'a str,
    /// The files of the shards, in the order of the words.
    pub shards: Vec<ShardFiles<'a>>,
}

/// What words ask about data in shards.
#[derive(Debug, Drop, PartialEq, Eq)]
pub enum ShardCall<'a> {
    /// To print the triples of a file on lines.
    Lines(Lining<'a>),
    /// To list the ways that a schema reads.
    Followed(Following<'a>),
    /// To list the nodes that a map reaches.
    Reached(Reaching<'a>),
    /// To look for a line of a part that a shard lacks.
    Covers(Covering<'a>),
}

/// What words ask of `shextool`.
#[derive(Debug, Drop, PartialEq, Eq)]
pub enum ToolCall<'a> {
    /// To write a schema in ShExJ.
    Convert(Converting<'a>),
    /// To list the extents of the labels of a schema.
    Extents(Listing<'a>),
    /// To say why answers are not as asked.
    Explain(Explaining<'a>),
    /// Something about data in shards.
    Shards(ShardCall<'a>),
}

/// What words ask of `typing_session`.
#[derive(Debug, Drop, PartialEq, Eq)]
pub struct Editing<'a> {
    /// The schema and the data.
    pub inputs: Inputs<'a>,
    /// The name of the file with the script.
    pub script: &'a str,
    /// The greatest width of a pair that is looked into, from 1 to 1,099,511,627,776 and by default 1,048,576.
    pub budget: u64,
}
