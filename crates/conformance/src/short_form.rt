// Indexes in a short form.

use crate::growing_text::GrowingText;
use std::alloc::Global;

/// The file of each release, behind its other parts.
const FILES: &str = r#","files":[{"name":"w.whl","url":"https://files.example/w.whl","size":1000,
    "sha256":"0000000000000000000000000000000000000000000000000000000000000000"}]}"#;

/// Pushes texts that have bars between them as JSON strings.
fn push_texts(json: &mut GrowingText, texts: &str) {
    let mut is_first = true;
    for text in texts.split('|') {
        json.push_str(if is_first { "\"" } else { "\",\"" });
        json.push_str(text);
        is_first = false;
    }
    json.push_str("\"");
}

/// Pushes a version, and what its release asks of Python.
fn push_version(json: &mut GrowingText, version: &str) {
    match version.split_once('@') {
        Some((version, python)) => {
            push_texts(json, version);
            json.push_str(",\"requires_python\":");
            push_texts(json, python);
        }
        None => push_texts(json, version),
    }
}

/// Pushes a release.
fn push_release(json: &mut GrowingText, release: &str) {
    json.push_str("{\"version\":");
    match release.split_once('|') {
        Some((version, dependencies)) => {
            push_version(json, version.trim_start_matches('!'));
            json.push_str(",\"requires_dist\":[");
            push_texts(json, dependencies);
            json.push_str("]");
        }
        None => push_version(json, release.trim_start_matches('!')),
    }
    if release.starts_with('!') {
        json.push_str(",\"yanked\":true");
    }
    json.push_str(FILES);
}

/// Pushes a package: its name and its releases.
fn push_package(json: &mut GrowingText, package: &str) {
    let Some((name, releases)) = package.split_once(' ') else {
        return json.miss();
    };
    json.push_str("{\"name\":");
    push_texts(json, name);
    json.push_str(",\"releases\":[");
    let mut is_first = true;
    for release in releases.split(' ') {
        json.push_str(if is_first { "" } else { "," });
        push_release(json, release);
        is_first = false;
    }
    json.push_str("]}");
}

/// The JSON text of an index of packages with slashes between them. In `a 1@>=3.8 2|b<2/b 1 !2` the first
/// release asks for Python `>=3.8`, the second depends on `b<2`, and the last is yanked.
pub fn json_of(alloc: Global, packages: &str) -> Option<String> {
    let mut json = GrowingText::new(alloc);
    json.push_str("{\"snapshot\":1,\"packages\":[");
    let mut is_first = true;
    for package in packages.split('/') {
        json.push_str(if is_first { "" } else { "," });
        push_package(&mut json, package);
        is_first = false;
    }
    json.push_str("]}");
    json.told()
}
