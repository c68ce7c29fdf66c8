//! The values of options, each by its form.
ghost use Rattle.std.specs.Prelude.{◌≡◌, IfOk, option_map};
ghost use Rattle.clap.specs.Words.{first_of, found_of, rows_of};
ghost use Rattle.client_words.specs.OptionValues.{job_by, lib_in, path_in, secret_in, server_in, turns_in, user_in};

use crate::address::{Server, number_up_to, server_of};
use crate::job::Job;
use crate::words::MAX_TURNS;
use clap::ArgMatches;
use ids::{LibId, Text};
use json_words::library_id;
use library_state::Secret;
use server_words::{is_name, secret_of};
use std::alloc::{AllocError, Global};

/// The value of an option, where it is there.
pub(crate) fn value_of<'a>(options: &ArgMatches<'a>, id: &str) -> Option<&'a str>
    ensures value { option_map (λ text. text.now) result ≡ first_of id.now (rows_of (found_of options.now)) }
{
    options.get_str(id)
}

/// A path that is not empty.
pub(crate) fn path_in(alloc: Global, value: Option<&str>) -> Result<Option<Text>, AllocError>
    ensures value { IfOk result (λ path. path ≡ path_in (option_map (λ text. text.now) value.entry)) }
{
    match value {
        Some(text) => {
            if text.is_empty() {
                return Ok(None);
            }
            Ok(Some(Text::copy(alloc, text)?))
        }
        None => Ok(None),
    }
}

/// The name of a user.
fn user_in(alloc: Global, value: Option<&str>) -> Result<Option<Text>, AllocError>
    ensures value { IfOk result (λ user. user ≡ user_in (option_map (λ text. text.now) value.entry)) }
{
    match value {
        Some(text) => {
            if !is_name(text) {
                return Ok(None);
            }
            Ok(Some(Text::copy(alloc, text)?))
        }
        None => Ok(None),
    }
}

/// A library, by its 36 characters.
fn lib_in(value: Option<&str>) -> Option<LibId>
    ensures value { result ≡ lib_in (option_map (λ text. text.now) value.entry) }
{
    match value {
        Some(text) => library_id(text),
        None => None,
    }
}

/// A secret, by its 40 digits.
fn secret_in(value: Option<&str>) -> Option<Secret>
    ensures value { result ≡ secret_in (option_map (λ text. text.now) value.entry) }
{
    match value {
        Some(text) => secret_of(text),
        None => None,
    }
}

/// A server, by its address.
pub(crate) fn server_in(alloc: Global, value: Option<&str>) -> Result<Option<Server>, AllocError>
    ensures value { IfOk result (λ server. server ≡ server_in (option_map (λ text. text.now) value.entry)) }
{
    match value {
        Some(text) => server_of(alloc, text),
        None => Ok(None),
    }
}

/// A number of turns.
pub(crate) fn turns_in(value: Option<&str>) -> Option<u32>
    ensures value { result ≡ turns_in (option_map (λ text. text.now) value.entry) }
{
    match value {
        Some(text) => number_up_to(text, MAX_TURNS),
        None => None,
    }
}

/// The job at a server whose other values these texts are, where each is there.
pub(crate) fn job_from(
    alloc: Global,
    server: Option<Server>,
    lib: Option<&str>,
    secret: Option<&str>,
    dir: Option<&str>,
    user: Option<&str>,
) -> Result<Option<Job>, AllocError>
    ensures value { IfOk result (λ job. job ≡ job_by server (lib_in (option_map (λ text. text.now) lib.entry))
        (secret_in (option_map (λ text. text.now) secret.entry)) (path_in (option_map (λ text. text.now) dir.entry))
        (user_in (option_map (λ text. text.now) user.entry))) }
{
    let Some(server) = server else {
        return Ok(None);
    };
    let Some(lib) = lib_in(lib) else {
        return Ok(None);
    };
    let Some(secret) = secret_in(secret) else {
        return Ok(None);
    };
    let Some(dir) = path_in(alloc, dir)? else {
        return Ok(None);
    };
    let Some(user) = user_in(alloc, user)? else {
        return Ok(None);
    };
    Ok(Some(Job {
        lib,
        dir,
        host: server.host,
        port: server.port,
        user,
        secret,
    }))
}
