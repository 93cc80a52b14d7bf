// What the server can do.
ghost use Rattle.std.specs.Prelude.{◌≡◌, IfOk};
ghost use Rattle.asl_json.specs.View.{data_of};
ghost use Rattle.asl_lsp.specs.Capabilities.{encoding_name, sync, rename_options, capabilities, server_info, initialize_result};

use asl_json::{Dec, Json, Members};
use asl_lsp_features::{told, with};
use asl_lsp_positions::Encoding;
use std::alloc::{AllocError, Global};

fn encoding_name(encoding: Encoding) -> &'static str
    ensures { result.now ≡ encoding_name encoding }
{
    match encoding {
        Encoding::Utf8 => "utf-8",
        Encoding::Utf16 => "utf-16",
    }
}

/// What it is told of documents: that they are opened and closed, the whole text after each change, and that they are saved.
fn sync(alloc: Global) -> Result<Json, AllocError>
    ensures { IfOk result (λ v. data_of v ≡ sync) }
{
    let members = with(alloc, Members::new(alloc), "openClose", Json::Bool(true))?;
    let members = with(alloc, members, "change", Json::Num(Dec::of_whole(1)))?;
    let members = with(alloc, members, "save", Json::Bool(true))?;
    Ok(Json::Dict(members))
}

/// A name can be asked for before it is changed.
fn rename_options(alloc: Global) -> Result<Json, AllocError>
    ensures { IfOk result (λ v. data_of v ≡ rename_options) }
{
    let members = with(
        alloc,
        Members::new(alloc),
        "prepareProvider",
        Json::Bool(true),
    )?;
    Ok(Json::Dict(members))
}

fn capabilities(alloc: Global, encoding: Encoding) -> Result<Json, AllocError>
    ensures { IfOk result (λ v. data_of v ≡ capabilities encoding) }
{
    let name = told(alloc, encoding_name(encoding))?;
    let members = with(alloc, Members::new(alloc), "positionEncoding", name)?;
    let members = with(alloc, members, "textDocumentSync", sync(alloc)?)?;
    let members = with(alloc, members, "definitionProvider", Json::Bool(true))?;
    let members = with(alloc, members, "referencesProvider", Json::Bool(true))?;
    let members = with(
        alloc,
        members,
        "documentFormattingProvider",
        Json::Bool(true),
    )?;
    let members = with(alloc, members, "renameProvider", rename_options(alloc)?)?;
    Ok(Json::Dict(members))
}

fn server_info(alloc: Global) -> Result<Json, AllocError>
    ensures { IfOk result (λ v. data_of v ≡ server_info) }
{
    let members = with(alloc, Members::new(alloc), "name", told(alloc, "asl")?)?;
    let members = with(alloc, members, "version", told(alloc, "0.1.0")?)?;
    Ok(Json::Dict(members))
}

/// The result of `initialize`. The error is that memory ran out.
pub(crate) fn initialize_result(alloc: Global, encoding: Encoding) -> Result<Json, AllocError>
    ensures { IfOk result (λ v. data_of v ≡ initialize_result encoding) }
{
    let capabilities = capabilities(alloc, encoding)?;
    let members = with(alloc, Members::new(alloc), "capabilities", capabilities)?;
    let members = with(alloc, members, "serverInfo", server_info(alloc)?)?;
    Ok(Json::Dict(members))
}
