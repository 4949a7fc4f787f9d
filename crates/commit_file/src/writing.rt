ghost use Rattle.std.specs.Prelude.{◌≡◌, ◌<◌, ◌^◌, ◌++◌, map, length, OnOk};
ghost use Rattle.std.specs.List.{flat_map, AllByRecursion};
ghost use Rattle.facet_config.specs.Declarations.{AreDimensions, IsDimension};
ghost use Rattle.commit_file.specs.Commits.{declaration};
ghost use Rattle.commit_file.specs.Limits.{IsLabelPart, IsDocumentPart, IsLivePart, IsDeclaration};
ghost use Rattle.commit_file.specs.Spelling.{head_bytes, label_bytes, flags_number, declaration_bytes, document_bytes};
ghost use Rattle.commit_file.specs.Spelling.{live_bytes, part_bytes};

use crate::bits::put_bits;
use crate::index::{DocumentPart, LivePart};
use crate::kept::Declaration;
use crate::parts::live_of;
use crate::taxonomy::LabelPart;
use facet_codec::{NoMemory, put_text, put_u8, put_u32, put_u64};
use facet_model::DimFlags;

/// Appends the kind of the file, the version, and the number of the commit.
#[tactic(auto, unfolding(crate::specs::Spelling::head_bytes))]
pub(crate) fn put_head(
    out: &mut Vec<u8>,
    kind: u32,
    version: u32,
    number: u64,
) -> Result<(), NoMemory>
    ensures { OnOk result (out.new.items ≡ out.old.items ++ head_bytes kind version number) }
{
    put_u32(out, kind)?;
    put_u32(out, version)?;
    put_u64(out, number)?;
    Ok(())
}

fn put_digest(out: &mut Vec<u8>, digest: [u8; 32]) -> Result<(), NoMemory>
    ensures bytes { OnOk result (out.new.items ≡ out.old.items ++ digest) }
    ensures long { length digest ≡ 32 }
{
    out.extend_from_slice(&digest)?;
    Ok(())
}

#[tactic(auto, unfolding(crate::specs::Spelling::label_bytes))]
fn put_label(out: &mut Vec<u8>, part: &LabelPart) -> Result<(), NoMemory>
    ensures bytes { OnOk result (out.new.items ≡ out.old.items ++ label_bytes part.now) }
    ensures fits { OnOk result (IsLabelPart part.now) }
{
    put_u64(out, part.number)?;
    put_u32(out, part.first)?;
    put_u32(out, part.count)?;
    put_digest(out, part.digest)?;
    Ok(())
}

/// Appends segments of labels.
pub(crate) fn put_labels(out: &mut Vec<u8>, parts: &[LabelPart]) -> Result<(), NoMemory>
    ensures bytes { OnOk result (out.new.items ≡ out.old.items ++ flat_map label_bytes parts.now) }
    ensures fit { OnOk result (AllByRecursion IsLabelPart parts.now) }
{
    for part in parts {
        put_label(out, part)?;
    }
    Ok(())
}

fn flags_number(flags: DimFlags) -> u8
    ensures { result ≡ flags_number flags }
{
    let hierarchical = if flags.hierarchical { 1 } else { 0 };
    let multi_valued = if flags.multi_valued { 2 } else { 0 };
    let require_dim_count = if flags.require_dim_count { 4 } else { 0 };
    hierarchical + (multi_valued + require_dim_count)
}

fn dim_of<'a>(one: &Declaration<'a>) -> &'a str
    ensures { result.now ≡ one.now.dim.now }
{
    one.dim
}

#[tactic(auto, unfolding(crate::specs::Spelling::declaration_bytes))]
fn put_declaration(out: &mut Vec<u8>, one: &Declaration<'_>) -> Result<(), NoMemory>
    requires { IsDimension one.now.dim.now }
    ensures bytes { OnOk result (out.new.items ≡ out.old.items ++ declaration_bytes (declaration one.now)) }
    ensures fits { OnOk result (IsDeclaration (declaration one.now)) }
{
    let dim = dim_of(one);
    put_text(out, dim)?;
    put_u8(out, flags_number(one.flags))?;
    Ok(())
}

/// Appends declarations.
pub(crate) fn put_declarations(out: &mut Vec<u8>, kept: &[Declaration<'_>]) -> Result<(), NoMemory>
    requires { AreDimensions (map declaration kept.now) }
    ensures bytes { OnOk result (out.new.items ≡ out.old.items
        ++ flat_map declaration_bytes (map declaration kept.now)) }
    ensures fit { OnOk result (AllByRecursion IsDeclaration (map declaration kept.now)) }
{
    for one in kept {
        put_declaration(out, one)?;
    }
    Ok(())
}

#[tactic(auto, unfolding(crate::specs::Spelling::document_bytes))]
fn put_document(out: &mut Vec<u8>, part: &DocumentPart) -> Result<(), NoMemory>
    ensures bytes { OnOk result (out.new.items ≡ out.old.items ++ document_bytes part.now) }
    ensures fits { OnOk result (IsDocumentPart part.now) }
{
    put_u64(out, part.number)?;
    put_u32(out, part.documents)?;
    put_digest(out, part.digest)?;
    Ok(())
}

// Appends how many records are live, and the bits if these are not all.
fn put_live(out: &mut Vec<u8>, part: &LivePart) -> Result<(), NoMemory>
    requires { IsLivePart part.now }
    ensures { OnOk result (out.new.items ≡ out.old.items ++ live_bytes part.now) }
{
    let documents = part.part.documents;
    let live = live_of(part);
    put_u32(out, live)?;
    if live < documents {
        put_bits(out, documents, &part.dead)?;
    }
    Ok(())
}

#[tactic(auto, unfolding(crate::specs::Spelling::part_bytes))]
fn put_part(out: &mut Vec<u8>, part: &LivePart) -> Result<(), NoMemory>
    requires { IsLivePart part.now }
    ensures bytes { OnOk result (out.new.items ≡ out.old.items ++ part_bytes 2 part.now) }
    ensures fits { OnOk result (IsDocumentPart part.now.part) }
{
    put_document(out, &part.part)?;
    put_live(out, part)?;
    Ok(())
}

/// Appends segments of documents, in version 2.
pub(crate) fn put_parts(out: &mut Vec<u8>, parts: &[LivePart]) -> Result<(), NoMemory>
    requires { AllByRecursion IsLivePart parts.now }
    ensures bytes { OnOk result (out.new.items ≡ out.old.items ++ flat_map (part_bytes 2) parts.now) }
    ensures fit { OnOk result (AllByRecursion (λ p. IsDocumentPart p.part) parts.now) }
{
    for part in parts {
        put_part(out, part)?;
    }
    Ok(())
}
