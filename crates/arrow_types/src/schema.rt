//! Schemas.
ghost use Rattle.std.specs.Prelude.{◌≡◌, ◌↔◌, ◌==◌, ◌<◌, [], IfOk, OnErr, IsTrue, IsSome, length, map, slice_get, string_bytes, is_some};
ghost use Rattle.std.specs.Option.{option_map};
ghost use Rattle.std.specs.List.{IsDistinct};
ghost use Rattle.std.specs.Str.{bytes_eq};
ghost use Rattle.arrow_types.specs.KindOf.{child_of};
ghost use Rattle.arrow_types.specs.Schemas.{keyed, keys_in, entry_of, field_under, with_field, with_fields};

use crate::Field;
use crate::same::{is_same_field, is_same_text};
use indexmap::IndexMap;
use indexmap::map::Iter;
use std::alloc::{AllocError, Global};
use std::marker::Model;
use std::rc::Rc;

/// Fields in order, each under a key of its own (Arrow Columnar Format, "Schema message").
pub struct ArrowSchema {
    fields: IndexMap<String, Field>,
}

impl Drop for ArrowSchema {
    fn drop(self) {
        let ArrowSchema { fields } = self;
        drop(fields);
    }
}

/// A schema that is shared.
pub type ArrowSchemaRef = Rc<ArrowSchema>;

impl Model for ArrowSchema {
    ghost use Rattle.std.specs.Prelude.{List};
    ghost use Rattle.arrow_types.specs.Schemas.{Keyed, schema_code, keyed};

    ghost Value = { List Keyed };

    ghost coded = { schema_code };

    ghost view = { λ a. keyed a.fields.entries };
}

impl ArrowSchema {
    /// A schema without fields.
    pub fn new(alloc: Global) -> ArrowSchema
        ensures { result ≡ [] }
    {
        ArrowSchema {
            fields: IndexMap::new(alloc),
        }
    }

    /// The fields in order, each under its name; of fields with one name the last stands, at the first one's place.
    pub fn from_fields(alloc: Global, fields: Vec<Field>) -> Result<ArrowSchema, AllocError>
        ensures { IfOk result (λ s. s ≡ with_fields [] (map child_of fields.items)) }
    {
        let mut schema = ArrowSchema::new(alloc);
        for field in fields {
            let name = field.name.clone()?;
            drop(schema.insert(name, field)?);
        }
        Ok(schema)
    }

    /// Puts a field under a key, and gives back the field that was there.
    pub fn insert(&mut self, key: String, field: Field) -> Result<Option<Field>, AllocError>
        ensures held { IfOk result (λ old. option_map child_of old ≡ field_under (string_bytes key) self.old) }
        ensures put { IfOk result (λ _. self.new ≡ with_field (string_bytes key) (child_of field) self.old) }
        ensures unchanged { OnErr result (self.new ≡ self.old) }
    {
        Ok(self.fields.insert(key, field)?)
    }

    /// How many fields there are.
    pub fn len(&self) -> usize
        ensures count { result ≡ length self.now }
        ensures distinct { IsDistinct bytes_eq (keys_in self.now) }
    {
        self.fields.len()
    }

    /// Whether there is no field.
    pub fn is_empty(&self) -> bool
        ensures { result ≡ (length self.now == 0) }
    {
        self.fields.is_empty()
    }

    /// Whether there is a field under a key.
    pub fn contains(&self, key: &str) -> bool
        ensures { result ≡ is_some (field_under key.now self.now) }
    {
        self.fields.contains_key(key)
    }

    /// The field under a key.
    pub fn get(&self, key: &str) -> Option<&Field>
        ensures { option_map (λ f. child_of f.now) result ≡ field_under key.now self.now }
    {
        self.fields.get(key)
    }

    /// The key and the field at a place, counted from 0.
    pub fn get_at_index(&self, index: usize) -> Option<(&String, &Field)>
        ensures { option_map entry_of result ≡ slice_get self.now index }
    {
        self.fields.get_index(index)
    }

    /// The keys and fields, in order.
    pub fn iter(&self) -> Iter<'_, String, Field>
        ensures { keyed result ≡ self.now }
    {
        self.fields.iter()
    }

    /// A copy of the schema.
    pub fn try_clone(&self, alloc: Global) -> Result<ArrowSchema, AllocError>
        ensures { IfOk result (λ s. s ≡ self.now) }
    {
        let mut copy = ArrowSchema::new(alloc);
        for (key, field) in self.fields.iter() {
            let key = key.clone()?;
            let field = field.try_clone(alloc)?;
            drop(copy.insert(key, field)?);
        }
        Ok(copy)
    }
}

fn is_same_entry(a: Option<(&String, &Field)>, b: Option<(&String, &Field)>) -> bool
    ensures { IsTrue result ↔ (option_map entry_of a.entry ≡ option_map entry_of b.entry) }
{
    match a {
        None => b.is_none(),
        Some((key, field)) => match b {
            None => false,
            Some((other, fellow)) => is_same_text(key, other) && is_same_field(field, fellow),
        },
    }
}

fn is_same_schema(a: &ArrowSchema, b: &ArrowSchema) -> bool
    ensures { IsTrue result ↔ (a.now ≡ b.now) }
{
    if a.len() != b.len() {
        return false;
    }
    for i in 0..a.len() {
        if !is_same_entry(a.get_at_index(i), b.get_at_index(i)) {
            return false;
        }
    }
    true
}

impl PartialEq for ArrowSchema {
    ghost use Rattle.std.specs.Prelude.{◌≡◌, ◌↔◌, IsTrue};
    ghost use Rattle.std.specs.Cmp.{partial_equiv_from_equiv};
    ghost use Rattle.arrow_types.specs.Schemas.{schema_eq, schema_eq_equiv};

    ghost eq = { schema_eq };

    ghost laws = { partial_equiv_from_equiv schema_eq_equiv };

    fn eq(&self, other: &ArrowSchema) -> bool
        ensures eq { result ≡ schema_eq self.now other.now }
        ensures same { IsTrue result ↔ (self.now ≡ other.now) }
    {
        is_same_schema(self, other)
    }
}
