//! The dictionary ids of fields.
ghost use Rattle.std.specs.Prelude.{◌≡◌, ◌↔◌, IsTrue, IfOk, map, is_some, None};
ghost use Rattle.ipc_fields.specs.IpcFields.{Tree, no_fields, tree_of, ids_of};
ghost use Rattle.ipc_fields.specs.Contains.{has_id};

use std::alloc::{AllocError, Global};

/// The dictionary ids of a field: its own, where its type is a dictionary, and those of its children. A dictionary's
/// IPC field is that of its values with the id, and an extension's that of the type below it (Schema.fbs,
/// DictionaryEncoding).
#[derive(Drop)]
pub struct IpcField {
    /// An IPC field for each child.
    pub fields: Vec<IpcField>,
    /// The id of its dictionary, where its type is one.
    pub dictionary_id: Option<i64>,
}

/// The IPC fields of a schema's fields, and its byte order (Schema.fbs, Schema).
#[derive(Drop)]
pub struct IpcSchema {
    /// An IPC field for each field.
    pub fields: Vec<IpcField>,
    /// Whether numbers in bodies have the lowest byte first.
    pub is_little_endian: bool,
}

impl IpcField {
    /// An IPC field without children and without an id. It takes no memory.
    pub fn new(alloc: Global) -> IpcField
        ensures { tree_of result ≡ record { id = None; children = no_fields } }
    {
        IpcField {
            fields: Vec::new(alloc),
            dictionary_id: None,
        }
    }

    /// Whether the field or one below it has a dictionary.
    #[tactic(auto, using(crate::proofs::Trees::one_has_id, crate::proofs::Trees::one_has_none, crate::proofs::Trees::none_left))]
    pub fn contains_dictionary(&self) -> bool
        ensures { result ≡ has_id (tree_of self.now).id (tree_of self.now).children }
    {
        if self.dictionary_id.is_some() {
            return true;
        }
        for field in &self.fields {
            if field.contains_dictionary() {
                return true;
            }
        }
        false
    }

    /// A copy of the IPC field.
    pub fn try_clone(&self, alloc: Global) -> Result<IpcField, AllocError>
        ensures { IfOk result (λ f. tree_of f ≡ tree_of self.now) }
    {
        let mut fields = Vec::with_capacity(alloc, self.fields.len())?;
        for field in &self.fields {
            fields.push(field.try_clone(alloc)?)?;
        }
        Ok(IpcField {
            fields,
            dictionary_id: self.dictionary_id,
        })
    }
}

impl IpcSchema {
    /// A copy of the IPC schema.
    pub fn try_clone(&self, alloc: Global) -> Result<IpcSchema, AllocError>
        ensures fields { IfOk result (λ s. map tree_of s.fields.items ≡ map tree_of self.now.fields.items) }
        ensures order { IfOk result (λ s. s.is_little_endian ≡ self.now.is_little_endian) }
    {
        let mut fields = Vec::with_capacity(alloc, self.fields.len())?;
        for field in &self.fields {
            fields.push(field.try_clone(alloc)?)?;
        }
        Ok(IpcSchema {
            fields,
            is_little_endian: self.is_little_endian,
        })
    }
}

fn is_same_id(a: Option<i64>, b: Option<i64>) -> bool
    ensures { IsTrue result ↔ (a ≡ b) }
{
    match a {
        None => b.is_none(),
        Some(x) => match b {
            None => false,
            Some(y) => x == y,
        },
    }
}

#[cycle(same)]
fn is_same_field(a: &IpcField, b: &IpcField) -> bool
    ensures { IsTrue result ↔ (tree_of a.now ≡ tree_of b.now) }
{
    is_same_id(a.dictionary_id, b.dictionary_id)
        && are_same_fields(a.fields.as_slice(), b.fields.as_slice())
}

#[cycle(same)]
pub(crate) fn are_same_fields(a: &[IpcField], b: &[IpcField]) -> bool
    ensures { IsTrue result ↔ (map tree_of a.now ≡ map tree_of b.now) }
{
    if a.len() != b.len() {
        return false;
    }
    for i in 0..a.len() {
        if !is_same_field(&a[i], &b[i]) {
            return false;
        }
    }
    true
}

impl PartialEq for IpcField {
    ghost use Rattle.std.specs.Ordering.{on};
    ghost use Rattle.std.specs.Cmp.{on_per, partial_equiv_from_equiv};
    ghost use Rattle.std.specs.Prelude.{◌≡◌, ◌↔◌, IsTrue};
    ghost use Rattle.ipc_fields.specs.IpcFields.{tree_of};
    ghost use Rattle.ipc_fields.specs.IpcFieldCode.{tree_eq, tree_eq_equiv};

    ghost eq = { on tree_of tree_eq };

    ghost laws = { on_per tree_of (partial_equiv_from_equiv tree_eq_equiv) };

    fn eq(&self, other: &IpcField) -> bool
        ensures eq { result ≡ tree_eq (tree_of self.now) (tree_of other.now) }
        ensures same { IsTrue result ↔ (tree_of self.now ≡ tree_of other.now) }
    {
        is_same_field(self, other)
    }
}

fn is_same_schema(a: &IpcSchema, b: &IpcSchema) -> bool
    ensures { IsTrue result ↔ ((ids_of a.now.fields.items ≡ ids_of b.now.fields.items) × (a.now.is_little_endian ≡ b.now.is_little_endian)) }
{
    are_same_fields(a.fields.as_slice(), b.fields.as_slice())
        && a.is_little_endian == b.is_little_endian
}

impl PartialEq for IpcSchema {
    ghost use Rattle.std.specs.Ordering.{on};
    ghost use Rattle.std.specs.Cmp.{on_per, partial_equiv_from_equiv};
    ghost use Rattle.std.specs.Prelude.{◌≡◌, ◌↔◌, IsTrue};
    ghost use Rattle.ipc_fields.specs.IpcFields.{ids_of};
    ghost use Rattle.ipc_fields.specs.IpcFieldCode.{tree_eq, tree_eq_equiv, schema_tree};

    ghost eq = { on (λ s. schema_tree (ids_of s.fields.items) s.is_little_endian) tree_eq };

    ghost laws = { on_per (λ s. schema_tree (ids_of s.fields.items) s.is_little_endian) (partial_equiv_from_equiv tree_eq_equiv) };

    fn eq(&self, other: &IpcSchema) -> bool
        ensures eq { result ≡ tree_eq (schema_tree (ids_of self.now.fields.items) self.now.is_little_endian) (schema_tree (ids_of other.now.fields.items) other.now.is_little_endian) }
        ensures same { IsTrue result ↔ ((ids_of self.now.fields.items ≡ ids_of other.now.fields.items) × (self.now.is_little_endian ≡ other.now.is_little_endian)) }
    {
        is_same_schema(self, other)
    }
}
