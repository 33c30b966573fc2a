// Laws about all bytes.
ghost use Rattle.wire_fields.specs.Readings.{IsReadOneWay};
ghost use Rattle.wire_messages.specs.Request.{IsRequest, request_refuses};
ghost use Rattle.wire_messages.specs.Response.{IsResponse, response_refuses};

/// Any bytes either spell one request, or have one first fault as a request.
pub fn requests_are_read_one_way()
    ensures { IsReadOneWay request_refuses IsRequest }
{}

/// Any bytes either spell one response, or have one first fault as a response.
pub fn responses_are_read_one_way()
    ensures { IsReadOneWay response_refuses IsResponse }
{}
