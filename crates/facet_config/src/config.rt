ghost use Rattle.std.specs.Prelude.{◌≡◌, ◌≢◌, ◌<◌, ◌++◌, [], ◌∷◌, Some, None, length, slice_get, IfOk, OnOk, OnErr};
ghost use Rattle.std.specs.Prelude.{IfErr, IsOk};
ghost use Rattle.std.specs.List.{list_any};
ghost use Rattle.std.specs.Str.{bytes_eq};
ghost use Rattle.facet_model.specs.Flags.{flags};
ghost use Rattle.facet_config.specs.Declarations.{AreDimensions, IsDimension};
ghost use Rattle.facet_config.specs.Faults.{declare_fault};

use crate::fault::DeclareFault;
use facet_model::DimFlags;
use facet_names::NoMemory;
use indexmap::IndexMap;
use std::alloc::Global;
use std::hash::RandomState;
use std::marker::Model;

// Comparing with this many names takes less time than hashing one.
const FEW: usize = 8;

const NO_FLAGS: DimFlags = DimFlags {
    hierarchical: false,
    multi_valued: false,
    require_dim_count: false,
};

/// The declared dimensions with their flags, in the order of declaration, as Lucene's `FacetsConfig`. A dimension that
/// was not declared has no flag set.
///
/// The flags of a dimension are found by comparing names if few are declared, and by hash otherwise. So a look-up takes
/// constant time.
#[derive(Drop)]
pub struct FacetsConfig {
    pub(crate) dims: IndexMap<String, DimFlags, RandomState>,
}

impl Model for FacetsConfig {
    ghost use Rattle.facet_model.specs.Flags.{Config};
    ghost use Rattle.facet_config.specs.Declarations.{declarations, AreDimensions};

    ghost Value = { Config };

    ghost view = { λ c. declarations c.dims.entries };

    ghost invariant = { λ c. AreDimensions (declarations c.dims.entries) };
}

impl FacetsConfig {
    ghost use Rattle.facet_config.specs.declared.fault.DeclareFault.TheVariants.{NoMemory as Memory};

    /// Returns a config without a declaration. `keys` are hash keys of the names; no result depends on them. It
    /// allocates nothing.
    pub fn new(alloc: Global, keys: RandomState) -> FacetsConfig
        ensures { result ≡ [] }
    {
        FacetsConfig {
            dims: IndexMap::with_hasher(alloc, keys),
        }
    }

    // Compares with one name after the other.
    fn compared(&self, dim: &str) -> DimFlags
        ensures { result ≡ flags self.now dim.now }
    {
        for (name, flags) in self.dims.iter() {
            if dim == name.as_str() {
                return *flags;
            }
        }
        NO_FLAGS
    }

    /// Returns the flags of a dimension. It takes constant time and allocates nothing.
    pub fn flags(&self, dim: &str) -> DimFlags
        ensures { result ≡ flags self.now dim.now }
    {
        if self.dims.len() <= FEW {
            return self.compared(dim);
        }
        match self.dims.get(dim) {
            Some(flags) => *flags,
            None => NO_FLAGS,
        }
    }

    fn is_declared(&self, dim: &str) -> bool
        ensures { result ≡ list_any (λ d. bytes_eq dim.now d.0) self.now }
    {
        self.dims.contains_key(dim)
    }

    /// Declares a dimension, once. It checks the name first, and copies it.
    ///
    /// Errors: `BadName` if the name has no byte or more than 1,024; `Twice` if the dimension is declared already; out
    /// of memory. Then nothing changes.
    pub fn declare(&mut self, dim: &str, flags: DimFlags) -> Result<(), DeclareFault>
        ensures ok { OnOk result (self.new ≡ self.old ++ (dim.now, flags) ∷ []) }
        ensures fits { IsOk result → declare_fault self.old dim.now ≡ None }
        ensures err { IfErr result (λ e. e ≢ Memory → declare_fault self.old dim.now ≡ Some e) }
        ensures memory { IfErr result (λ e. e ≡ Memory → declare_fault self.old dim.now ≡ None) }
        ensures same { OnErr result (self.new ≡ self.old) }
    {
        if dim.is_empty() || dim.len() > 1024 {
            return Err(DeclareFault::BadName {
                len: dim.len() as u64,
            });
        }
        if self.is_declared(dim) {
            return Err(DeclareFault::Twice);
        }
        let name = String::from_str(*self.dims.allocator(), dim)?;
        self.dims.insert(name, flags)?;
        Ok(())
    }

    /// Returns how many dimensions are declared. Each has a name of 1 to 1,024 bytes.
    pub fn len(&self) -> usize
        ensures is { result ≡ length self.now }
        ensures named { AreDimensions self.now }
    {
        self.dims.len()
    }

    /// Returns the dimension that was declared at a place, from 0, with its flags. It allocates nothing.
    pub fn declared(&self, at: usize) -> (&str, DimFlags)
        requires { at < length self.now }
        ensures is { slice_get self.now at ≡ Some (result.0.now, result.1) }
        ensures named { IsDimension result.0.now }
    {
        let (name, flags) = self.dims.get_index(at).unwrap();
        (name.as_str(), *flags)
    }

    /// Copies the config with its declarations. Errors: out of memory.
    pub fn dup(&self) -> Result<FacetsConfig, NoMemory>
        ensures { IfOk result (λ c. c ≡ self.now) }
    {
        let dims = self.dims.clone()?;
        Ok(FacetsConfig { dims })
    }
}
