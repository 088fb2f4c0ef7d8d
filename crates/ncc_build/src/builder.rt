//! A schema that is built call by call.

ghost use Rattle.std.specs.Prelude.{◌≡◌, ◌<◌, true, ltb, None, OnErr, IfErr, IfOk, IsOk, OnOk, length};
ghost use Rattle.ncc_values.specs.Name.{FitsAsName, is_name};
ghost use Rattle.ncc_schema.specs.Schema.{record_dims, with_count};
ghost use Rattle.ncc_schema.specs.declared.schema.Count.TheVariants.{Known};
ghost use Rattle.ncc_build.specs.Building.{IsBuilt, attr_names, dim_names, var_names, first_refusal, no_schema, refuses_dim, refuses_global, refuses_var, refuses_attr, with_dim, with_global, with_var, with_attr, IsJudged, BuildFails, BuildFailsOr};
ghost use Rattle.ncc_build.specs.Judging.{dim_refusals, refusal_of};
ghost use Rattle.ncc_build.specs.Tables.{names_of_attrs};

use crate::adding::{add_named, add_to_var, own_attr, reserve_in_var};
use crate::built::Built;
use crate::fault::WriteFault;
use crate::judging::{exceeds_count_for_version, judge_attr, judge_ids, judge_kind, judge_name};
use crate::names::{Names, own_name};
use ncc_layout::{PlanFault, standard};
use ncc_schema::{Count, Dim, Schema, Var, limit_of_counts};
use ncc_values::{Seq, Values, Version, XType};
use std::alloc::{AllocError, Global};

/// The names of each list.
#[derive(Drop)]
struct Tables {
    dims: Names,
    globals: Names,
    vars: Names,
    /// The attributes of each variable.
    attrs: Vec<Names>,
}

/// A schema so far.
#[derive(Drop)]
pub struct SchemaBuilder {
    alloc: Global,
    schema: Schema,
    /// Whether there is a record dimension.
    has_records: bool,
    tables: Tables,
    ghost built: { ∥ IsBuilt schema ∥₁ },
    ghost none: { schema.count ≡ Known 0 },
    ghost record_dim: { has_records ≡ ltb 0 (record_dims schema.dims) },
    ghost dims_named: { tables.dims ≡ dim_names schema },
    ghost globals_named: { tables.globals ≡ attr_names schema.gatts },
    ghost vars_named: { tables.vars ≡ var_names schema },
    ghost attrs_named: { tables.attrs.items ≡ names_of_attrs schema },
}

impl SchemaBuilder {
    ghost use Rattle.ncc_build.specs.Builds.{schema_so_far, schema_of};

    /// A schema without dimensions, attributes and variables. What is added will be kept in memory
    /// of the allocator.
    pub fn new(alloc: Global, version: Version) -> SchemaBuilder
        ensures { schema_so_far result ≡ no_schema version }
    {
        SchemaBuilder {
            alloc,
            schema: Schema {
                version,
                count: Count::Known(0),
                dims: Seq::new(alloc),
                gatts: Seq::new(alloc),
                vars: Seq::new(alloc),
            },
            has_records: false,
            tables: Tables {
                dims: Names::new(alloc),
                globals: Names::new(alloc),
                vars: Names::new(alloc),
                attrs: Vec::new(alloc),
            },
        }
    }

    /// The schema that the calls so far gave.
    pub fn schema(&self) -> &Schema
        ensures { result.now ≡ schema_so_far self.now }
    {
        &self.schema
    }

    /// Judges a dimension.
    fn judge_dim(&self, name: &[u8], len: u64) -> Result<(), WriteFault>
        ensures fits { OnOk result (FitsAsName name.now) }
        ensures judged { IsJudged (refuses_dim (is_name name.now) (schema_so_far self.now) name.now len) result }
    {
        judge_name(self.alloc, &self.tables.dims, name)?;
        self.judge_length(len)
    }

    /// Judges the length of a dimension, and the number of dimensions.
    fn judge_length(&self, len: u64) -> Result<(), WriteFault>
        ensures { let s = schema_so_far self.now in
            IsJudged (first_refusal (dim_refusals s.version s.dims len)) result }
    {
        if len == 0 && self.has_records {
            return Err(WriteFault::TwoRecordDims);
        }
        if exceeds_count_for_version(self.schema.version, self.schema.dims.len(), len) {
            return Err(WriteFault::CountForVersion);
        }
        Ok(())
    }

    /// Adds a dimension of this length, of length 0 the record dimension, and gives its number. It is
    /// refused for its name, then as a second record dimension, then for its length or the number of
    /// dimensions; after an error the schema is as it was.
    pub fn dim(&mut self, name: &[u8], len: u64) -> Result<usize, WriteFault>
        ensures judged { IsJudged (refuses_dim (is_name name.now) (schema_so_far self.old) name.now len) result }
        ensures number { IfOk result (λ number. number ≡ length (schema_so_far self.old).dims) }
        ensures added { OnOk result (schema_so_far self.new ≡ with_dim (schema_so_far self.old) name.now len) }
        ensures err { OnErr result (schema_so_far self.new ≡ schema_so_far self.old) }
    {
        self.judge_dim(name, len)?;
        let number = self.schema.dims.len();
        self.add_dim(name, len)?;
        Ok(number)
    }

    /// Adds a dimension that isn't refused.
    fn add_dim(&mut self, name: &[u8], len: u64) -> Result<(), AllocError>
        requires fits { FitsAsName name.now }
        requires passes { refuses_dim true (schema_so_far self.old) name.now len ≡ None }
        ensures added { OnOk result (schema_so_far self.new ≡ with_dim (schema_so_far self.old) name.now len) }
        ensures err { OnErr result (schema_so_far self.new ≡ schema_so_far self.old) }
    {
        let listed = own_name(self.alloc, name)?;
        let dim = Dim {
            name: own_name(self.alloc, name)?,
            length: len,
        };
        let tables = &mut self.tables;
        add_named(
            self.alloc,
            &mut self.schema.dims,
            dim,
            &mut tables.dims,
            listed,
        )?;
        if len == 0 {
            self.has_records = true;
        }
        Ok(())
    }

    /// Adds an attribute of the whole file. It is refused for its name, then for its type, then for the
    /// number of its values or of attributes; after an error the schema is as it was.
    pub fn global(&mut self, name: &[u8], values: Values) -> Result<(), WriteFault>
        ensures judged { IsJudged (refuses_global (is_name name.now) (schema_so_far self.old) name.now values) result }
        ensures added { OnOk result (schema_so_far self.new ≡ with_global (schema_so_far self.old) name.now values) }
        ensures err { OnErr result (schema_so_far self.new ≡ schema_so_far self.old) }
    {
        self.judge_global(name, &values)?;
        self.add_global(name, values)?;
        Ok(())
    }

    /// Judges a global attribute.
    fn judge_global(&self, name: &[u8], values: &Values) -> Result<(), WriteFault>
        ensures fits { OnOk result (FitsAsName name.now) }
        ensures judged { IsJudged
            (refuses_global (is_name name.now) (schema_so_far self.now) name.now values.now) result }
    {
        let gatts = self.schema.gatts.as_slice();
        let names = &self.tables.globals;
        judge_attr(self.alloc, self.schema.version, gatts, names, name, values)
    }

    /// Adds a global attribute that isn't refused.
    fn add_global(&mut self, name: &[u8], values: Values) -> Result<(), AllocError>
        requires fits { FitsAsName name.now }
        requires passes { refuses_global true (schema_so_far self.old) name.now values ≡ None }
        ensures added { OnOk result (schema_so_far self.new ≡ with_global (schema_so_far self.old) name.now values) }
        ensures err { OnErr result (schema_so_far self.new ≡ schema_so_far self.old) }
    {
        let listed = own_name(self.alloc, name)?;
        let attr = own_attr(self.alloc, name, values)?;
        let tables = &mut self.tables;
        add_named(
            self.alloc,
            &mut self.schema.gatts,
            attr,
            &mut tables.globals,
            listed,
        )?;
        Ok(())
    }

    /// Judges a variable.
    fn judge_var(&self, name: &[u8], xtype: XType, dims: &[usize]) -> Result<(), WriteFault>
        ensures fits { OnOk result (FitsAsName name.now) }
        ensures judged { IsJudged
            (refuses_var (is_name name.now) (schema_so_far self.now) name.now xtype dims.now) result }
    {
        judge_name(self.alloc, &self.tables.vars, name)?;
        judge_ids(self.schema.dims.as_slice(), dims)?;
        judge_kind(
            self.schema.version,
            xtype,
            self.schema.vars.len(),
            dims.len(),
        )
    }

    /// Adds a variable over dimensions, each given by its number, and gives the variable's number. It
    /// is refused for its name, then for its dimensions, then for its type, then for the number of its
    /// dimensions or of variables; after an error the schema is as it was.
    pub fn var(&mut self, name: &[u8], xtype: XType, dims: &[usize]) -> Result<usize, WriteFault>
        ensures judged { IsJudged
            (refuses_var (is_name name.now) (schema_so_far self.old) name.now xtype dims.now) result }
        ensures number { IfOk result (λ number. number ≡ length (schema_so_far self.old).vars) }
        ensures added { OnOk result
            (schema_so_far self.new ≡ with_var (schema_so_far self.old) name.now xtype dims.now) }
        ensures err { OnErr result (schema_so_far self.new ≡ schema_so_far self.old) }
    {
        self.judge_var(name, xtype, dims)?;
        let number = self.schema.vars.len();
        self.add_var(name, xtype, dims)?;
        Ok(number)
    }

    /// Adds a variable that isn't refused.
    fn add_var(&mut self, name: &[u8], xtype: XType, dims: &[usize]) -> Result<(), AllocError>
        requires fits { FitsAsName name.now }
        requires passes { refuses_var true (schema_so_far self.old) name.now xtype dims.now ≡ None }
        ensures added { OnOk result
            (schema_so_far self.new ≡ with_var (schema_so_far self.old) name.now xtype dims.now) }
        ensures err { OnErr result (schema_so_far self.new ≡ schema_so_far self.old) }
    {
        let listed = own_name(self.alloc, name)?;
        let var = Var {
            name: own_name(self.alloc, name)?,
            dims: Seq::from_vec(Vec::from_slice(self.alloc, dims)?),
            attrs: Seq::new(self.alloc),
            xtype,
        };
        let tables = &mut self.tables;
        tables.attrs.reserve(1)?;
        add_named(
            self.alloc,
            &mut self.schema.vars,
            var,
            &mut tables.vars,
            listed,
        )?;
        tables.attrs.push_reserved(Names::new(self.alloc));
        Ok(())
    }

    /// Makes room for so many attributes of a variable. The schema stays as it is.
    pub(crate) fn reserve_attrs(&mut self, var: usize, count: usize) -> Result<(), AllocError>
        requires there { var < length (schema_so_far self.old).vars }
        ensures same { schema_so_far self.new ≡ schema_so_far self.old }
        ensures none { count ≡ 0 → IsOk result }
    {
        let tables = &mut self.tables;
        reserve_in_var(
            self.alloc,
            &mut self.schema.vars,
            var,
            &mut tables.attrs,
            count,
        )
    }

    /// Adds an attribute of a variable that is there. It is refused as a global one is; after an error
    /// the schema is as it was.
    pub fn attr(&mut self, var: usize, name: &[u8], values: Values) -> Result<(), WriteFault>
        requires there { var < length (schema_so_far self.old).vars }
        ensures judged { IsJudged
            (refuses_attr (is_name name.now) (schema_so_far self.old) var name.now values) result }
        ensures added { OnOk result
            (schema_so_far self.new ≡ with_attr (schema_so_far self.old) var name.now values) }
        ensures err { OnErr result (schema_so_far self.new ≡ schema_so_far self.old) }
    {
        self.judge_of_var(var, name, &values)?;
        self.add_attr(var, name, values)?;
        Ok(())
    }

    /// Judges an attribute of a variable.
    fn judge_of_var(&self, var: usize, name: &[u8], values: &Values) -> Result<(), WriteFault>
        requires there { var < length (schema_so_far self.now).vars }
        ensures fits { OnOk result (FitsAsName name.now) }
        ensures judged { IsJudged
            (refuses_attr (is_name name.now) (schema_so_far self.now) var name.now values.now) result }
    {
        let attrs = self.schema.vars.as_slice()[var].attrs.as_slice();
        let names = &self.tables.attrs[var];
        judge_attr(self.alloc, self.schema.version, attrs, names, name, values)
    }

    /// Adds an attribute of a variable that isn't refused.
    fn add_attr(&mut self, var: usize, name: &[u8], values: Values) -> Result<(), AllocError>
        requires there { var < length (schema_so_far self.old).vars }
        requires fits { FitsAsName name.now }
        requires passes { refuses_attr true (schema_so_far self.old) var name.now values ≡ None }
        ensures added { OnOk result
            (schema_so_far self.new ≡ with_attr (schema_so_far self.old) var name.now values) }
        ensures err { OnErr result (schema_so_far self.new ≡ schema_so_far self.old) }
    {
        let listed = own_name(self.alloc, name)?;
        let attr = own_attr(self.alloc, name, values)?;
        let tables = &mut self.tables;
        add_to_var(
            self.alloc,
            &mut self.schema.vars,
            var,
            attr,
            &mut tables.attrs,
            listed,
        )?;
        Ok(())
    }

    /// The schema with so many records, at its standard places. It is refused for the number of
    /// records, then for a size, then for the place of a variable; then the builder comes back.
    pub fn build(self, records: u64) -> Result<Built, (SchemaBuilder, WriteFault)>
        ensures built { IfOk result (λ built. schema_of built ≡ with_count (schema_so_far self) records) }
        ensures passes { OnOk result ((f : WriteFault) → BuildFails (schema_so_far self) records f → ⊥) }
        ensures refused { IfErr result (λ e. (schema_so_far e.0 ≡ schema_so_far self)
            × BuildFailsOr (schema_so_far self) records e.1) }
    {
        if records >= limit_of_counts(self.schema.version) {
            return Err((self, WriteFault::CountForVersion));
        }
        let SchemaBuilder {
            alloc,
            schema,
            has_records,
            tables,
        } = self;
        let counted = recount(schema, records);
        match standard(alloc, &counted) {
            Ok(places) => Ok(Built::new(counted, Seq::from_vec(places))),
            Err(fault) => {
                let builder = SchemaBuilder {
                    alloc,
                    schema: recount(counted, 0),
                    has_records,
                    tables,
                };
                Err((builder, refusal_of(fault)))
            }
        }
    }
}

/// The same schema with another number of records.
fn recount(schema: Schema, records: u64) -> Schema
    ensures { result ≡ with_count schema records }
{
    let Schema {
        version,
        count: _,
        dims,
        gatts,
        vars,
    } = schema;
    Schema {
        version,
        count: Count::Known(records),
        dims,
        gatts,
        vars,
    }
}

/// The refusal for want of a plan.
fn refusal_of(fault: PlanFault) -> WriteFault
    ensures { result ≡ refusal_of fault }
{
    match fault {
        PlanFault::SizeForVersion => WriteFault::SizeForVersion,
        PlanFault::OffsetForVersion => WriteFault::OffsetForVersion,
        PlanFault::Memory => WriteFault::Memory,
    }
}
