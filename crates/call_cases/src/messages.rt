// Messages that are read and written again.
use plain_values::NoMemory;
use remote_messages::{decode_job, decode_result, encode_job, encode_result, job_length};
use std::alloc::Global;
use wire_messages::{
    MessageFault, decode_request, decode_response, encode_request, encode_response,
};

/// Returns the bytes of these hexadecimal digits, or none if the string isn't hexadecimal.
pub fn bytes_of(alloc: Global, digits: &str) -> Vec<u8> {
    match hex::decode(alloc, digits) {
        Ok(bytes) => bytes,
        Err(_) => Vec::new(alloc),
    }
}

fn written(alloc: Global, bytes: &[u8]) -> Result<String, NoMemory> {
    Ok(hex::encode(alloc, bytes)?)
}

fn refused(alloc: Global, fault: MessageFault) -> Result<String, NoMemory> {
    match fault {
        MessageFault::NoMemory => Err(NoMemory),
        fault => Ok(format!(in alloc; "{fault:?}")?),
    }
}

pub fn request(alloc: Global, digits: &str) -> Result<String, NoMemory> {
    match decode_request(alloc, bytes_of(alloc, digits).as_slice()) {
        Ok(request) => written(alloc, encode_request(alloc, &request)?.as_slice()),
        Err(fault) => refused(alloc, fault),
    }
}

pub fn response(alloc: Global, digits: &str) -> Result<String, NoMemory> {
    match decode_response(alloc, bytes_of(alloc, digits).as_slice()) {
        Ok(response) => written(alloc, encode_response(alloc, &response)?.as_slice()),
        Err(fault) => refused(alloc, fault),
    }
}

/// Returns a Job's written form, and its length computed before it is written.
pub fn job(alloc: Global, digits: &str) -> Result<String, NoMemory> {
    match decode_job(alloc, bytes_of(alloc, digits).as_slice()) {
        Ok(job) => {
            let text = written(alloc, encode_job(alloc, &job)?.as_slice())?;
            Ok(format!(in alloc; "{} {}", text.as_str(), job_length(&job))?)
        }
        Err(fault) => refused(alloc, fault),
    }
}

pub fn result(alloc: Global, digits: &str) -> Result<String, NoMemory> {
    match decode_result(alloc, bytes_of(alloc, digits).as_slice()) {
        Ok(result) => written(alloc, encode_result(alloc, &result)?.as_slice()),
        Err(fault) => refused(alloc, fault),
    }
}
